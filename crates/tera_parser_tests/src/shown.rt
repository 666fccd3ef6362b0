//! What `show` writes, and what it answers.

use crate::streams::{Failing, reader, writer};
use std::alloc::Global;
use std::test::Fail;
use tera_show::{Outcome, ShowFault, show, status};

#[test]
fn shows_that_input_is_no_text(rt: HostRuntime) -> Result<(), Fail> {
    let mut written = Vec::new(rt.alloc());
    let mut rest: &[u8] = &[0x7B, 0x7B, 0xC3];
    let answer = show(rt.alloc(), &mut rest, &mut written);
    assert!(rt; answer == Ok(Outcome::NotUtf8) && status(&answer) == 2);
    assert!(rt; written.as_slice() == "input is not UTF-8\n".as_bytes());
    assert!(rt; status(&Err(ShowFault::Memory)) == 3);
    Ok(())
}

// Whether a read that fails at this call is reported, after which there is no other call, and nothing is written.
fn reports_of_read(alloc: Global, call: u32) -> bool {
    let mut written = Vec::new(alloc);
    let mut reader = reader(call);
    let answer = show(alloc, &mut reader, &mut written);
    let is_reported = answer == Err(ShowFault::Read) && status(&answer) == 4;
    is_reported && reader.calls == call && written.is_empty()
}

#[test]
fn reads_fail_at_each_call(rt: HostRuntime) {
    for call in 1..9u32 {
        assert!(rt; reports_of_read(rt.alloc(), call), "at call {call}");
    }
}

// Whether a write that fails at this call is reported, after so many bytes of the text that were sent, each by a call.
fn reports_of_write(alloc: Global, failing: Failing, call: u32, sent: usize) -> bool {
    let mut writer = writer(alloc, failing);
    let answer = show(alloc, &mut reader(9), &mut writer);
    let is_reported = if call <= 7 {
        answer == Err(ShowFault::Write) && status(&answer) == 4
    } else {
        answer == Ok(Outcome::Tree) && status(&answer) == 0
    };
    is_reported && "expr a\n".as_bytes().get(..sent) == Some(writer.taken.as_slice())
}

#[test]
fn writes_fail_at_each_call(rt: HostRuntime) {
    for (sent, call) in (1..9u32).enumerate() {
        for failing in &[Failing::ByError(call), Failing::ByNone(call)] {
            assert!(rt;
                reports_of_write(rt.alloc(), *failing, call, sent),
                "at call {call}"
            );
        }
    }
}

// The message of a fault names what the template says, here a line feed and an escape.
#[test]
fn fault_is_one_line(rt: HostRuntime) -> Result<(), Fail> {
    let mut written = Vec::new(rt.alloc());
    let mut rest = "{% extends \"a\n\u{1b}b\" %}{% extends \"c\" %}".as_bytes();
    let answer = show(rt.alloc(), &mut rest, &mut written);
    assert!(rt; answer == Ok(Outcome::Syntax) && status(&answer) == 1);
    let expected = "syntax error at 2:17 (31..34): Template is already extending `a\\n\\u001bb`\n";
    assert!(rt; written.as_slice() == expected.as_bytes());
    Ok(())
}
