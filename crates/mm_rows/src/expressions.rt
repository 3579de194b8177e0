// Where an expression ends, and the first token with which none goes on. Each row is a text, the index of the token at
// which the expression begins, and what is read from there.

use mm_base::sure::SureFiles;
use mm_parse_expr::{ParseEnd, expr};
use mm_token::read::get_tokens;
use std::alloc::{AllocError, Global};
use std::test::Fail;

#[derive(Clone, Copy, Debug, PartialEq, Eq)]
enum Found {
    /// The index after the expression.
    Ends(usize),
    /// The code's number and the column of a syntax fault.
    Fault(u32, u32),
    /// No tokens, or no memory.
    Nothing,
}

fn read_expression(alloc: Global, text: &[u8], at: usize) -> Result<Found, AllocError> {
    let bytes = Vec::from_slice(alloc, text)?;
    let mut held = Vec::new(alloc);
    held.push((String::from_str(alloc, "m.cc")?, bytes))?;
    let mut files = SureFiles { held };
    let Ok(tokens) = get_tokens(alloc, &mut files, "m.cc") else {
        return Ok(Found::Nothing);
    };
    if at > tokens.list.as_slice().len() {
        return Ok(Found::Nothing);
    }
    match expr(alloc, &tokens, at) {
        Ok((_, end)) => Ok(Found::Ends(end)),
        Err(ParseEnd::Fault(code, place)) => Ok(Found::Fault(code.number, place.col)),
        Err(ParseEnd::NoMemory) => Ok(Found::Nothing),
    }
}

// A mark so many times, a name, and another mark so many times.
fn nested(
    alloc: Global,
    before: u8,
    count: usize,
    after: u8,
    closed: usize,
) -> Result<Vec<u8>, AllocError> {
    let mut text = Vec::new(alloc);
    text.resize(count, before)?;
    text.push(b'x')?;
    let length = text.len();
    text.resize(length.saturating_add(closed), after)?;
    Ok(text)
}

#[test]
fn each_form_of_expression_is_read_to_its_end(rt: HostRuntime) -> Result<(), Fail> {
    let rows = [
        ("1 + 2 * 3 - 4 / 5 % 6 ;", 0, 11),
        ("a || b && c == d != e < f > g <= h >= i", 0, 17),
        ("a = b += c -= d *= e /= f %= g", 0, 13),
        ("a ? b : c ? d : e", 0, 9),
        ("- + ! * & ++ -- x", 0, 8),
        ("x ++ -- ( ) . m -> n", 0, 9),
        ("f ( x , 1u , true )", 0, 8),
        ("( ( this ) ) ;", 0, 5),
        ("true false", 0, 1),
        ("class K ; new K", 3, 5),
        ("class K ; new K ( 1 , 2 )", 3, 10),
        ("class K ; K :: m ( )", 3, 8),
        ("class K ; x . K :: m", 3, 8),
        ("class K ; dynamic_cast < K * > ( p ) -> m", 3, 13),
    ];
    for (text, at, end) in rows {
        assert_eq!(rt;
            read_expression(rt.alloc(), text.as_bytes(), at)?,
            Found::Ends(end)
        );
    }
    Ok(())
}

#[test]
fn a_fault_is_at_the_first_token_with_which_no_expression_goes_on(
    rt: HostRuntime,
) -> Result<(), Fail> {
    let rows = [
        ("", 0, 1),
        ("1 + ;", 0, 5),
        ("1 +", 0, 4),
        ("f ( 1 , )", 0, 9),
        ("( 1", 0, 4),
        ("( 1 ;", 0, 5),
        ("a ? b ;", 0, 7),
        ("a ? b", 0, 6),
        ("x . 1", 0, 5),
        ("a = ;", 0, 5),
        ("new 1", 0, 5),
        ("if", 0, 1),
        ("class K ; K * p", 3, 13),
        ("class K ; new K ( 1", 3, 20),
        ("class K ; x . K m", 3, 17),
        ("dynamic_cast < int", 0, 16),
    ];
    for (text, at, column) in rows {
        assert_eq!(rt;
            read_expression(rt.alloc(), text.as_bytes(), at)?,
            Found::Fault(1, column)
        );
    }
    Ok(())
}

#[test]
fn expressions_nest_as_deep_as_the_limit_and_no_deeper(rt: HostRuntime) -> Result<(), Fail> {
    let rows = [
        (b'!', 999, b';', 1, Found::Ends(1000)),
        (b'(', 999, b')', 0, Found::Fault(1, 1001)),
        (b'(', 499, b')', 499, Found::Ends(999)),
        (b'!', 1000, b';', 1, Found::Fault(2, 1001)),
        (b'(', 3000, b')', 3000, Found::Fault(2, 1001)),
        (b'(', 1, b';', 1, Found::Fault(1, 3)),
    ];
    for (before, count, after, closed, wanted) in rows {
        let text = nested(rt.alloc(), before, count, after, closed)?;
        assert_eq!(rt; read_expression(rt.alloc(), text.as_slice(), 0)?, wanted);
    }
    Ok(())
}
