// Runs Check on tables and writes a line for each: the number of records, or `refused`, the number and the detail.

#![tactic(auto)]

use std::io;

// Check's answer for one table.
fn show(rt: &impl Print, bytes: &[u8]) -> io::Result<()> {
    match table::check(bytes) {
        Ok(m) => println!(rt; "{m}"),
        Err(why) => { println!(rt; "refused {} {}", why.number(), why.detail()) }
    }
}

// T1 to T4 of document 01, "Lines on the bench".
fn bench(rt: &impl Print) -> io::Result<()> {
    // T1
    show(
        rt,
        b"\x02\x61\x61\x01\x02\x61\x61\x00\x02\x62\x62\x00\x04\x01\x02\x02\x02\x62\x62\x00\x02\x63\x63\x00\x04\x04\x05\x03\x03\x00\x03\x00\x03\x07\x06\x00\x05\x08\x00\x00",
    )?;
    // T2
    show(
        rt,
        b"\x02\x61\x61\x00\x01\x00\x00\x00\x03\x00\x01\x00\x02\x62\x62\x00\x02\x61\x61\x00\x02\x62\x62\x00\x04\x04\x05\x00\x03\x03\x06\x00\x04\x02\x07\x00",
    )?;
    // T3
    show(rt, b"\x01\x00\x00\x00\x05\x00\x00\x00")?;
    // T4
    show(rt, b"\x01\x00\x00\x07")?;
    Ok(())
}

// Refusal 1: 0, 3, 4, 1,020, 1,021 and 1,024 bytes of Nothing records.
fn sizes(rt: &impl Print) -> io::Result<()> {
    let zeros = [0u8; 1024];
    show(rt, &zeros[..0])?;
    show(rt, &zeros[..3])?;
    show(rt, &zeros[..4])?;
    show(rt, &zeros[..1020])?;
    show(rt, &zeros[..1021])?;
    show(rt, &zeros)?;
    Ok(())
}

// Refusal 2, and tags, which any record may have.
fn kinds(rt: &impl Print) -> io::Result<()> {
    // kind 5
    show(rt, b"\x01\x00\x00\x00\x05\x00\x00\x00")?;
    // kind 6
    show(rt, b"\x06\x00\x00\x00")?;
    // kind 7
    show(rt, b"\x07\x00\x00\x00")?;
    // kind 255, at record 1
    show(rt, b"\x01\x00\x00\x00\xff\x00\x00\x00")?;
    // tags
    show(rt, b"\x00\x00\x00\xff\x05\x00\x00\x01")?;
    Ok(())
}

// Refusal 3: each field that is not used.
fn unused(rt: &impl Print) -> io::Result<()> {
    // Nothing, a
    show(rt, b"\x00\x01\x00\x00")?;
    // Nothing, b
    show(rt, b"\x00\x00\x01\x00")?;
    // Empty, a
    show(rt, b"\x01\x01\x00\x00")?;
    // Empty, b
    show(rt, b"\x01\x00\x01\x00")?;
    // Star, b
    show(rt, b"\x01\x00\x00\x00\x05\x00\x01\x00")?;
    Ok(())
}

// Refusal 4, at Range and at Other.
fn bounds(rt: &impl Print) -> io::Result<()> {
    // a = b
    show(rt, b"\x02\x07\x07\x00")?;
    show(rt, b"\x06\x07\x07\x00")?;
    // a = b + 1
    show(rt, b"\x02\x08\x07\x00")?;
    show(rt, b"\x06\x08\x07\x00")?;
    // a = 0, b = 255: every byte, and none
    show(rt, b"\x02\x00\xff\x00")?;
    show(rt, b"\x06\x00\xff\x00")?;
    // a = 255, b = 0
    show(rt, b"\x02\xff\x00\x00")?;
    show(rt, b"\x06\xff\x00\x00")?;
    // at record 1
    show(rt, b"\x06\x07\x07\x00\x06\x08\x07\x00")?;
    Ok(())
}

// Refusal 5: child k - 1 and child k.
fn children(rt: &impl Print) -> io::Result<()> {
    // Or, a = k - 1
    show(rt, b"\x01\x00\x00\x00\x01\x00\x00\x00\x03\x01\x00\x00")?;
    // Or, b = k - 1
    show(rt, b"\x01\x00\x00\x00\x01\x00\x00\x00\x03\x00\x01\x00")?;
    // Or, a = k
    show(rt, b"\x01\x00\x00\x00\x01\x00\x00\x00\x03\x02\x00\x00")?;
    // Or, b = k
    show(rt, b"\x01\x00\x00\x00\x01\x00\x00\x00\x03\x00\x02\x00")?;
    // Seq, a = k - 1
    show(rt, b"\x01\x00\x00\x00\x01\x00\x00\x00\x04\x01\x00\x00")?;
    // Seq, a = k
    show(rt, b"\x01\x00\x00\x00\x01\x00\x00\x00\x04\x02\x00\x00")?;
    // Seq, b = k
    show(rt, b"\x01\x00\x00\x00\x01\x00\x00\x00\x04\x00\x02\x00")?;
    // Star, a = k - 1
    show(rt, b"\x01\x00\x00\x00\x01\x00\x00\x00\x05\x01\x00\x00")?;
    // Star, a = k
    show(rt, b"\x01\x00\x00\x00\x01\x00\x00\x00\x05\x02\x00\x00")?;
    // Star, a above k
    show(
        rt,
        b"\x01\x00\x00\x00\x01\x00\x00\x00\x05\x03\x00\x00\x01\x00\x00\x00",
    )?;
    Ok(())
}

// Refusal 6: a child named by a lower record, and by the other field.
fn named(rt: &impl Print) -> io::Result<()> {
    // Star and Star
    show(rt, b"\x01\x00\x00\x00\x05\x00\x00\x00\x05\x00\x00\x00")?;
    // Or and Star
    show(
        rt,
        b"\x01\x00\x00\x00\x01\x00\x00\x00\x03\x00\x01\x00\x05\x01\x00\x00",
    )?;
    // Star and Or, a
    show(
        rt,
        b"\x01\x00\x00\x00\x01\x00\x00\x00\x05\x00\x00\x00\x03\x00\x01\x00",
    )?;
    // Star and Or, b
    show(
        rt,
        b"\x01\x00\x00\x00\x01\x00\x00\x00\x05\x00\x00\x00\x03\x01\x00\x00",
    )?;
    // Seq and Star
    show(
        rt,
        b"\x01\x00\x00\x00\x01\x00\x00\x00\x04\x00\x01\x00\x05\x00\x00\x00",
    )?;
    // Star and Seq, b
    show(
        rt,
        b"\x01\x00\x00\x00\x01\x00\x00\x00\x05\x00\x00\x00\x04\x01\x00\x00",
    )?;
    // Or, both fields
    show(rt, b"\x01\x00\x00\x00\x03\x00\x00\x00")?;
    // Seq, both fields
    show(rt, b"\x01\x00\x00\x00\x04\x00\x00\x00")?;
    Ok(())
}

// A record with several faults gives the lowest number, and the lowest record comes first.
fn order(rt: &impl Print) -> io::Result<()> {
    // 2 before 3
    show(rt, b"\x07\x01\x01\x00")?;
    // 2 before 4
    show(rt, b"\x07\x02\x01\x00")?;
    // 4 at record 0, 2 at record 1
    show(rt, b"\x06\x02\x01\x00\x07\x00\x00\x00")?;
    // 3 before 5
    show(rt, b"\x01\x00\x00\x00\x05\x01\x01\x00")?;
    // 3 before 6
    show(rt, b"\x01\x00\x00\x00\x05\x00\x00\x00\x05\x00\x01\x00")?;
    // 5 before 6
    show(rt, b"\x01\x00\x00\x00\x03\x01\x01\x00")?;
    // 5 before 6, in another field
    show(rt, b"\x01\x00\x00\x00\x05\x00\x00\x00\x03\x00\x02\x00")?;
    // 6 at record 2, 2 at record 3
    show(
        rt,
        b"\x01\x00\x00\x00\x05\x00\x00\x00\x05\x00\x00\x00\x07\x00\x00\x00",
    )?;
    // 5 at record 0, 2 at record 1
    show(rt, b"\x05\x00\x00\x00\x07\x00\x00\x00")?;
    Ok(())
}

fn main(rt: HostRuntime) -> io::Result<()> {
    bench(&rt)?;
    sizes(&rt)?;
    kinds(&rt)?;
    unused(&rt)?;
    bounds(&rt)?;
    children(&rt)?;
    named(&rt)?;
    order(&rt)
}
