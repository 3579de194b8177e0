// The tokens of units and of their headers, each with its kind, its place and its text, or the first lexical fault.

use mm_base::code::Code;
use mm_base::place::Place;
use mm_base::sure::SureFiles;
use mm_token::read::get_tokens;
use mm_token::token::{Kind, Token, TokenEnd};
use std::alloc::{AllocError, Global};
use std::test::Fail;

fn letter(kind: Kind) -> char {
    match kind {
        Kind::Word => 'W',
        Kind::Class => 'C',
        Kind::Key => 'K',
        Kind::Number => 'N',
        Kind::Mark => 'M',
    }
}

fn add_token(alloc: Global, text: &mut String, t: &Token) -> Result<(), AllocError> {
    let kind = letter(t.kind);
    let (file, line, col) = (t.place.file, t.place.line, t.place.col);
    let spelled = t.text.as_str();
    let one = format!(in alloc; "{kind}{file}:{line}:{col}:{spelled} ")?;
    text.push_str(one.as_str())
}

fn fault(alloc: Global, code: Code, at: Place, name: &str) -> Result<String, AllocError> {
    let number = code.number;
    let (file, line, col) = (at.file, at.line, at.col);
    format!(in alloc; "L{number} {name} {file}:{line}:{col}")
}

/// Each token's kind, place and text, and the end; or the fault.
fn shown(alloc: Global, held: Vec<(String, Vec<u8>)>) -> Result<String, AllocError> {
    let mut files = SureFiles { held };
    match get_tokens(alloc, &mut files, "m.cc") {
        Ok(tokens) => {
            let mut text = String::new(alloc);
            for t in tokens.list.as_slice() {
                add_token(alloc, &mut text, t)?;
            }
            let (line, col, bytes) = (tokens.end.line, tokens.end.col, tokens.bytes);
            let end = format!(in alloc; "end {line}:{col} bytes {bytes}")?;
            text.push_str(end.as_str())?;
            Ok(text)
        }
        Err(TokenEnd::Absent(name, at)) => {
            let name = name.as_str();
            let line = at.line;
            format!(in alloc; "absent {name} {line}")
        }
        Err(TokenEnd::Fault(code, at, name)) => fault(alloc, code, at, name.as_str()),
        Err(_) => format!(in alloc; "other"),
    }
}

fn entry(alloc: Global, name: &str, bytes: &[u8]) -> Result<(String, Vec<u8>), AllocError> {
    Ok((
        String::from_str(alloc, name)?,
        Vec::from_slice(alloc, bytes)?,
    ))
}

#[test]
fn texts(rt: HostRuntime) -> Result<(), Fail> {
    let alloc = rt.alloc();
    let rows: [(&[u8], &str); 20] = [
        (b"/*", "L2 m.cc 0:1:1"),
        (b"#define x", "L5 m.cc 0:1:1"),
        (b"int main() { return 01; }", "L1 m.cc 0:1:21"),
        (b"int main() { return 2147483648; }", "L3 m.cc 0:1:21"),
        (b"", "end 1:1 bytes 0"),
        (b"x\r\ny\n", "W0:1:1:x W0:2:1:y end 3:1 bytes 5"),
        (
            b"A class A; A",
            "W0:1:1:A K0:1:3:class C0:1:9:A M0:1:10:; C0:1:12:A end 1:13 bytes 12",
        ),
        (b"0 00", "L1 m.cc 0:1:3"),
        (
            b"4294967295u 0U",
            "N0:1:1:4294967295u N0:1:13:0U end 1:15 bytes 14",
        ),
        (b"4294967296u", "L3 m.cc 0:1:1"),
        (b"1x", "L1 m.cc 0:1:1"),
        (
            b">>=->*",
            "M0:1:1:> M0:1:2:>= M0:1:4:-> M0:1:6:* end 1:7 bytes 6",
        ),
        (b"a|b", "L1 m.cc 0:1:2"),
        (
            b"\xce\xb1 \xe6\xbc\xa2 e\xcc\x81",
            "W0:1:1:\u{3b1} W0:1:4:\u{6f22} W0:1:8:e\u{301} end 1:11 bytes 10",
        ),
        (b"a \xff", "L1 m.cc 0:1:3"),
        (b"/* \xff */", "L1 m.cc 0:1:4"),
        (b"/* \xff ", "L2 m.cc 0:1:1"),
        (b"/**/ #pragma once", "L1 m.cc 0:1:6"),
        (b" # pragma once // x\nx", "W0:2:1:x end 2:2 bytes 21"),
        (b"#include \"a.h\"\n/*", "absent a.h 1"),
    ];
    for (text, wanted) in &rows {
        let mut held = Vec::new(alloc);
        held.push(entry(alloc, "m.cc", *text)?)?;
        let got = shown(alloc, held)?;
        assert_eq!(rt; got.as_str(), *wanted);
    }
    Ok(())
}

#[test]
fn headers(rt: HostRuntime) -> Result<(), Fail> {
    let alloc = rt.alloc();
    let mut held = Vec::new(alloc);
    held.push(entry(alloc, "m.cc", b"#include \"a.h\"\nx\n#include\"b.h\"\nA")?)?;
    held.push(entry(alloc, "a.h", b"class A;\n#include \"b.h\"")?)?;
    held.push(entry(alloc, "b.h", b"A b")?)?;
    let got = shown(alloc, held)?;
    assert_eq!(rt;
        got.as_str(),
        "K1:1:1:class C1:1:7:A M1:1:8:; C2:1:1:A W2:1:3:b W0:2:1:x C0:4:1:A end 4:2 bytes 58"
    );
    let mut held = Vec::new(alloc);
    held.push(entry(alloc, "m.cc", b"\n #include \"a.h\"")?)?;
    held.push(entry(alloc, "a.h", b"x\n 1x")?)?;
    let got = shown(alloc, held)?;
    assert_eq!(rt; got.as_str(), "L1 a.h 1:2:2");
    let mut held = Vec::new(alloc);
    held.push(entry(alloc, "m.cc", b"x\n#include \"m.cc\"\ny")?)?;
    let got = shown(alloc, held)?;
    assert_eq!(rt;
        got.as_str(),
        "W0:1:1:x W1:1:1:x W1:3:1:y W0:3:1:y end 3:2 bytes 38"
    );
    Ok(())
}

/// A chain of headers, each of which includes the next; the last is empty.
fn chain(alloc: Global, count: u32) -> Result<String, AllocError> {
    let mut held = Vec::new(alloc);
    held.push(entry(alloc, "m.cc", b"#include \"h1\"\nz")?)?;
    for i in 1..count {
        let next = i.saturating_add(1);
        let name = format!(in alloc; "h{i}")?;
        let text = format!(in alloc; " #include \"h{next}\"")?;
        held.push(entry(alloc, name.as_str(), text.as_bytes())?)?;
    }
    let last = format!(in alloc; "h{count}")?;
    held.push(entry(alloc, last.as_str(), b"")?)?;
    shown(alloc, held)
}

#[test]
fn chains(rt: HostRuntime) -> Result<(), Fail> {
    let got = chain(rt.alloc(), 32)?;
    assert_eq!(rt; got.as_str(), "W0:2:1:z end 2:2 bytes 472");
    let got = chain(rt.alloc(), 33)?;
    assert_eq!(rt; got.as_str(), "L4 h32 32:1:2");
    Ok(())
}
