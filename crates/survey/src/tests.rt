use crate::code::Code;
use crate::keys::LengthNumber;
use crate::length::Length;
use crate::weight::LengthWeighter;
use crate::write_back::{Row, WriteBack, WriteBackBuffer};
use interface::{Key, Lifecycle, Weighter};
use std::test::Fail;

#[test]
fn the_range_of_a_length(rt: HostRuntime) -> Result<(), Fail> {
    let least = Length::new(0, 0, 0, false).ok_or(())?;
    let most = Length::new(u64::MAX, 10_000, 15, true).ok_or(())?;
    assert_eq!(rt; least.strike(), None);
    assert_eq!(rt; most.observations(), 10_000);
    assert_eq!(rt; most.step(), 15);
    assert_eq!(rt; Length::new(0, 10_001, 0, false), None);
    assert_eq!(rt; Length::new(0, 0, 16, false), None);
    assert_eq!(rt; Length::new(0, 65_536, 256, false), None);
    assert_eq!(rt; least.with_observations(10_001), None);
    assert_eq!(rt; least.with_step(16), None);
    assert!(rt; size_of::<Length>() <= 16);
    Ok(())
}

#[test]
fn corrections_mark_and_a_trim_does_not(rt: HostRuntime) -> Result<(), Fail> {
    let read = Length::new(9, 3, 2, false).ok_or(())?;
    assert_eq!(rt; read.strike(), Length::new(9, 2, 2, true));
    assert_eq!(rt;
        read.with_observations(10_000),
        Length::new(9, 10_000, 2, true)
    );
    assert_eq!(rt; read.with_step(15), Length::new(9, 3, 15, true));
    assert_eq!(rt; Some(read.trimmed()), Length::new(9, 3, 0, false));
    Ok(())
}

#[test]
fn the_range_of_a_text(rt: HostRuntime) -> Result<(), Fail> {
    assert!(rt; Code::new(b"").is_none());
    assert!(rt; Code::new(b"123456789").is_none());
    let one = Code::new(b"1").ok_or(())?;
    let eight = Code::new(b"12345678").ok_or(())?;
    assert_eq!(rt; one.len(), 1);
    assert_eq!(rt; eight.as_bytes(), b"12345678".as_slice());
    assert!(rt; !one.equal(&eight));
    Ok(())
}

fn hash_of(text: &[u8]) -> u64 {
    Code::new(text).map_or(0, |code| code.hash())
}

#[test]
fn published_hashes(rt: HostRuntime) {
    assert_eq!(rt; hash_of(b"a"), 0xaf63_dc4c_8601_ec8c);
    assert_eq!(rt; hash_of(b"b"), 0xaf63_df4c_8601_f1a5);
    assert_eq!(rt; hash_of(b"fo"), 0x0898_5907_b541_d342);
    assert_eq!(rt; hash_of(b"foobar"), 0x8594_4171_f739_67e8);
    assert_eq!(rt; LengthNumber(u32::MAX).hash(), 0xe113_025b_80b5_83eb);
}

fn weight_at(step: u32) -> u32 {
    Length::new(0, 3, step, false).map_or(
        0,
        |length| LengthWeighter.weigh(&LengthNumber(1), &length),
    )
}

#[test]
fn a_picture_doubles_with_each_step(rt: HostRuntime) {
    assert_eq!(rt; weight_at(0), 160);
    assert_eq!(rt; weight_at(1), 672);
    assert_eq!(rt; weight_at(2), 1_184);
    assert_eq!(rt; weight_at(15), 8_388_768);
}

#[test]
fn rows_and_count_at_their_limit(rt: HostRuntime) -> Result<(), Fail> {
    let changed = Length::new(5, 1, 0, true).ok_or(())?;
    let unchanged = Length::new(5, 1, 0, false).ok_or(())?;
    let mut buffer = WriteBackBuffer::new();
    for i in 0..255u32 {
        WriteBack.on_evict_hot(&mut buffer, LengthNumber(i), changed);
        WriteBack.on_evict_cold(&mut buffer, LengthNumber(i), unchanged);
    }
    assert_eq!(rt; buffer.count(), 255);
    assert_eq!(rt; buffer.row(255), None);
    WriteBack.on_evict_cold(&mut buffer, LengthNumber(255), changed);
    let last = Row {
        key: LengthNumber(255),
        val: changed,
    };
    assert_eq!(rt; buffer.row(255), Some(last));
    WriteBack.on_evict_hot(&mut buffer, LengthNumber(256), changed);
    assert_eq!(rt; buffer.count(), 257);
    assert_eq!(rt; buffer.row(255), Some(last));
    assert_eq!(rt; buffer.row(256), None);
    Ok(())
}
