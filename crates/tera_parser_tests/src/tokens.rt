//! Tokens that no source has, what comes after a fault, and what is shown of markers to who looks for a fault.

use std::test::Fail;
use tera_lexer::{Delimiters, Token, tokenize};

#[test]
fn tokens_of_no_source(rt: HostRuntime) -> Result<(), Fail> {
    let raw = Token::RawContent(true, "", false);
    let comment = Token::Comment(false, true);
    assert_eq!(rt;
        format!(in rt.alloc(); "{raw} {raw:?} {comment} {comment:?}")?.as_str(),
        "raw content RawContent(true, \"\", false) comment Comment(false, true)"
    );
    Ok(())
}

#[test]
fn a_fault_is_the_last_item(rt: HostRuntime) -> Result<(), Fail> {
    let mut tokens = tokenize(rt.alloc(), "{{ ? a }} b", Delimiters::default());
    assert!(rt; matches!(tokens.next(), Some(Ok((Token::VariableStart(false), _)))));
    assert!(rt; matches!(tokens.next(), Some(Err(_))));
    for _again in 0..3 {
        assert!(rt; tokens.next().is_none());
    }
    Ok(())
}

#[test]
fn markers(rt: HostRuntime) -> Result<(), Fail> {
    let shown = format!(in rt.alloc(); "{:?}", Delimiters::default())?;
    for part in ["Delimiters", "block_start", "\"{%\"", "\"#}\""] {
        assert!(rt; shown.as_str().contains(part), "{part} in {shown}");
    }
    Ok(())
}
