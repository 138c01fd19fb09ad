use crate::session::{Report, Session};
use crate::verdicts::{Verdict, inspect};
use std::test::Fail;
use survey::keys::LengthNumber;
use survey::length::Length;
use survey_text::faults::{Fault, Field};
use survey_text::lines::{LINE_BYTES, Line};
use survey_text::statements::Statement;

// What a line of this text says.
fn read(text: &[u8]) -> Result<Option<Statement>, Fault> {
    let mut line = Line::new();
    for byte in text {
        line.push(*byte);
    }
    line.read()
}

// Capacity, hot target and ghost bound of a box.
fn limits(text: &[u8]) -> Option<(u64, u64, u64)> {
    match Session::new().follow(1, read(text)) {
        Ok(Some(Report::BoxSetUp(settings))) => Some((
            settings.capacity(),
            settings.hot_target(),
            settings.ghost_bound(),
        )),
        _ => None,
    }
}

// The number of the pipe length on a line.
fn number(text: &[u8]) -> Option<u32> {
    match read(text) {
        Ok(Some(Statement::Record(key, _))) => Some(key.0),
        _ => None,
    }
}

#[test]
fn reads_lengths(rt: HostRuntime) {
    assert_eq!(rt; number(b"\t length\t7 0 1  2 changed\r"), Some(7));
    assert_eq!(rt; number(b"length 007 0 1 2 changed# done"), Some(7));
    assert_eq!(rt;
        number(b"length 7 18446744073709551615 1 2 unchanged"),
        Some(7)
    );
    assert_eq!(rt; read(b"   # length"), Ok(None));
    assert_eq!(rt; read(b"lengths 7 0 1 2 changed"), Err(Fault::Unknown));
    assert_eq!(rt;
        read(b"length 7\xff 0 1 2 changed"),
        Err(Fault::NotANumber(Field::Number))
    );
    assert_eq!(rt;
        read(b"length 7 0 1 2 # changed"),
        Err(Fault::Missing(Field::Mark))
    );
    assert_eq!(rt;
        read(b"length 7 18446744073709551616 1 2 changed"),
        Err(Fault::AboveRange(Field::Place))
    );
}

#[test]
fn reads_boxes(rt: HostRuntime) {
    assert_eq!(rt;
        limits(b"box capacity=4 items=4 hot=0.97 ghost=0.5"),
        Some((4, 3, 2))
    );
    assert_eq!(rt;
        limits(b"box capacity=0010 items=9 hot=.3 ghost=1"),
        Some((10, 3, 9))
    );
    assert_eq!(rt;
        limits(b"box capacity=10 items=9 hot=0.30000000000000 ghost=1."),
        Some((10, 3, 9))
    );
    assert_eq!(rt;
        read(b"box items=5 capacity=5"),
        Err(Fault::NotNamed(Field::Capacity))
    );
    assert_eq!(rt;
        read(b"box capacity=5 items="),
        Err(Fault::NotANumber(Field::Items))
    );
    assert_eq!(rt;
        read(b"box capacity=1 items=1 hot=0,5"),
        Err(Fault::NotAShare(Field::Hot))
    );
    assert_eq!(rt;
        read(b"box capacity=1 items=1 hot=0.300000000000000"),
        Err(Fault::NotAShare(Field::Hot))
    );
    assert_eq!(rt;
        read(b"box capacity=1 items=1 hot=."),
        Err(Fault::NotAShare(Field::Hot))
    );
}

#[test]
fn keeps_the_beginning_of_a_long_line(rt: HostRuntime) {
    let mut line = Line::new();
    for _ in 0..LINE_BYTES {
        line.push(b' ');
    }
    assert_eq!(rt; line.read(), Ok(None));
    line.push(b'#');
    assert_eq!(rt; line.read(), Err(Fault::Overlong));
    line.clear();
    assert_eq!(rt; line.read(), Ok(None));
}

#[test]
fn judges_at_the_target(rt: HostRuntime) -> Result<(), Fail> {
    let length = Length::new(0, 1, 1, false).ok_or(())?;
    let key = LengthNumber(1);
    assert_eq!(rt; inspect(Some(608), key, length).verdict, Verdict::Fits);
    assert_eq!(rt;
        inspect(Some(607), key, length).verdict,
        Verdict::FitsTrimmed
    );
    assert_eq!(rt;
        inspect(Some(96), key, length).verdict,
        Verdict::FitsTrimmed
    );
    assert_eq!(rt; inspect(Some(95), key, length).verdict, Verdict::TooHeavy);
    assert_eq!(rt; inspect(None, key, length).verdict, Verdict::Unjudged);
    Ok(())
}

#[test]
fn writes_back_what_was_corrected(rt: HostRuntime) -> Result<(), Fail> {
    let mut session = Session::new();
    let length = Length::new(5, 1, 1, true).ok_or(())?;
    for i in 0..300u32 {
        let record = Statement::Record(LengthNumber(i), length);
        let _ = session.follow(1, Ok(Some(record)));
    }
    assert_eq!(rt; session.row_count(), 300);
    assert!(rt; session.row(255).is_some() && session.row(256).is_none());
    assert_eq!(rt; session.rows().len(), 256);
    session.next_rows();
    assert_eq!(rt; session.row_count(), 0);
    assert_eq!(rt; session.totals().corrected, 300);
    Ok(())
}
