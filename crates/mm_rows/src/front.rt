// What `link` says of units that have headers, classes and all statements: the first fault, with its place.

use mm_base::sure::{SureFiles, SureSink, SureSource};
use mm_top::mm_main;
use std::alloc::{AllocError, Global};
use std::test::Fail;

/// The status and the message of `link m.cc` over these files.
fn link_files(alloc: Global, held: Vec<(String, Vec<u8>)>) -> Result<(u8, Vec<u8>), AllocError> {
    let mut words = Vec::new(alloc);
    words.push(String::from_str(alloc, "link")?)?;
    words.push(String::from_str(alloc, "m.cc")?)?;
    let mut files = SureFiles { held };
    let mut input = SureSource {
        bytes: Vec::new(alloc),
        next: 0,
    };
    let mut out = SureSink {
        got: Vec::new(alloc),
    };
    let mut err = SureSink {
        got: Vec::new(alloc),
    };
    let status = mm_main(
        alloc,
        words.as_slice(),
        &mut files,
        &mut input,
        &mut out,
        &mut err,
    );
    let SureSink { got } = err;
    Ok((status, got))
}

fn entry(alloc: Global, name: &str, bytes: &[u8]) -> Result<(String, Vec<u8>), AllocError> {
    Ok((
        String::from_str(alloc, name)?,
        Vec::from_slice(alloc, bytes)?,
    ))
}

/// The same of one unit without headers.
fn link_text(alloc: Global, text: &[u8]) -> Result<(u8, Vec<u8>), AllocError> {
    let mut held = Vec::new(alloc);
    held.push(entry(alloc, "m.cc", text)?)?;
    link_files(alloc, held)
}

/// A head, a piece so many times, a middle, another piece as often, and a tail.
fn nested(alloc: Global, parts: [&[u8]; 5], count: usize) -> Result<Vec<u8>, AllocError> {
    let mut text = Vec::from_slice(alloc, parts[0])?;
    for _ in 0..count {
        text.extend_from_slice(parts[1])?;
    }
    text.extend_from_slice(parts[2])?;
    for _ in 0..count {
        text.extend_from_slice(parts[3])?;
    }
    text.extend_from_slice(parts[4])?;
    Ok(text)
}

#[test]
fn the_first_fault_is_said_with_its_place(rt: HostRuntime) -> Result<(), Fail> {
    let rows = [
        ("int main() { int x = 1; return y; }", "1:32: S1 y"),
        ("int main() {", "1:13: Y1"),
        ("", "1:1: P5 main"),
        ("// nothing\n", "1:1: P5 main"),
        ("/*", "1:1: L2"),
        ("#define x", "1:1: L5"),
        ("int main() { return 01; }", "1:21: L1"),
        ("int main() { return 2147483648; }", "1:21: L3"),
        ("int main() { return 1 + ; @", "1:27: L1"),
        ("int main() { mm_put(x); return 1 }", "1:34: Y1"),
        ("int f(int, void);", "1:16: Y1"),
        (
            "int main() { return 0; } int main() { return 0; }",
            "1:30: S2 main",
        ),
    ];
    for (text, wanted) in rows {
        let (status, said) = link_text(rt.alloc(), text.as_bytes())?;
        let wanted = format!(in rt.alloc(); "m.cc:{wanted}\n")?;
        assert_eq!(rt; status, 1);
        assert_eq!(rt; said.as_slice(), wanted.as_bytes());
    }
    Ok(())
}

#[test]
fn statements_and_declarations_are_read(rt: HostRuntime) -> Result<(), Fail> {
    let rows = [
        ("int main() { if (1) if (0) ; else x; }", "1:35: S1 x"),
        ("int main() { if (1) if (0) ; else else ; }", "1:35: Y1"),
        (
            "int main() { if (1) if (0) ; else ; else ; else ; }",
            "1:44: Y1",
        ),
        ("int main() { K * p; }", "1:14: S1 K"),
        ("int main() { K * ; }", "1:18: Y1"),
        ("class K; int main() { K * p; }", "1:1: N0"),
        ("class K; int main() { K * ; }", "1:27: Y1"),
        ("class K; int main() { K K * p; }", "1:25: Y1"),
        ("class K; int main() { K :: f(); }", "1:1: N0"),
        ("class K; int main() { K :: ; }", "1:28: Y1"),
        (
            "class B; class C; class A : virtual public B, virtual public C {};",
            "1:1: N0",
        ),
        (
            "class B; class A : virtual virtual public B {};",
            "1:28: Y1",
        ),
        ("class B; class A : virtual public {};", "1:35: Y1"),
        ("class B; class A : virtual public B {}", "1:39: Y1"),
        ("class A { A(int x) : y(x), z() {} int y, z; };", "1:1: N0"),
        ("class A { A(int x) : y(x), {} int y; };", "1:28: Y1"),
        ("class A { A(int x) : y(x) int y; };", "1:27: Y1"),
        (
            "class A; int f(A* p) { dynamic_cast<A*>(p)->f(); }",
            "1:1: N0",
        ),
        (
            "class A; int f(A* p) { dynamic_cast<A>(p)->f(); }",
            "1:38: Y1",
        ),
        (
            "int f(virtual int& x, unsigned) { for (;;) break; }",
            "1:7: N0",
        ),
        ("int f(virtual) { }", "1:14: Y1"),
        ("int f() { do ; while (0) }", "1:26: Y1"),
        ("int f() { while () ; }", "1:18: Y1"),
        (
            "class A { virtual ~A() {}; public: virtual int f(); };",
            "1:1: N0",
        ),
        ("class A { virtual ~A() { ; } };", "1:26: Y1"),
        (
            "class A {}; A::A() {} int A::f() {} int A::g();",
            "1:47: Y1",
        ),
    ];
    for (text, wanted) in rows {
        let (status, said) = link_text(rt.alloc(), text.as_bytes())?;
        let wanted = format!(in rt.alloc(); "m.cc:{wanted}\n")?;
        assert_eq!(rt; status, 1);
        assert_eq!(rt; said.as_slice(), wanted.as_bytes());
    }
    Ok(())
}

#[test]
fn limits_are_at_their_tokens(rt: HostRuntime) -> Result<(), Fail> {
    let main: &[u8] = b"int main() {";
    let rows: [([&[u8]; 5], usize, &str); 8] = [
        ([main, b"{", b"x;", b"}", b"}"], 199, "1:212: S1 x"),
        ([main, b"{", b"", b"}", b"}"], 201, "1:213: Y2"),
        ([main, b"{", b")", b"}", b"}"], 200, "1:213: Y1"),
        ([main, b"{", b"", b"}", b"}"], 3000, "1:213: Y2"),
        ([main, b"if(a)", b";", b"", b"}"], 199, "1:16: S1 a"),
        ([main, b"x", b"", b"+x", b";}"], 1, "1:13: S1 x"),
        ([main, b"!", b"x", b"", b";}"], 998, "1:1011: S1 x"),
        ([main, b"!", b"x", b"", b";}"], 999, "1:1013: Y2"),
    ];
    for (parts, count, wanted) in rows {
        let text = nested(rt.alloc(), parts, count)?;
        let (status, said) = link_text(rt.alloc(), text.as_slice())?;
        let wanted = format!(in rt.alloc(); "m.cc:{wanted}\n")?;
        assert_eq!(rt; status, 1);
        assert_eq!(rt; said.as_slice(), wanted.as_bytes());
    }
    Ok(())
}

#[test]
fn the_deepest_trees_are_read_walked_and_dropped(rt: HostRuntime) -> Result<(), Fail> {
    let deep = nested(rt.alloc(), [b"", b"!", b"x;", b"", b""], 998)?;
    let parts: [&[u8]; 5] = [b"int main() {", b"{", deep.as_slice(), b"}", b"}"];
    let text = nested(rt.alloc(), parts, 199)?;
    let (status, said) = link_text(rt.alloc(), text.as_slice())?;
    assert_eq!(rt; status, 1);
    assert_eq!(rt; said.as_slice(), b"m.cc:1:1210: S1 x\n".as_slice());
    Ok(())
}

/// A unit whose headers include one another, so many, the last of which has this text.
fn chain(alloc: Global, count: u32, last: &str) -> Result<Vec<(String, Vec<u8>)>, AllocError> {
    let mut held = Vec::new(alloc);
    held.push(entry(alloc, "m.cc", b"#include \"h1\"\nint main() { return 0; }")?)?;
    for n in 1..count {
        let name = format!(in alloc; "h{n}")?;
        let next = n.saturating_add(1);
        let text = format!(in alloc; " #include \"h{next}\"\n")?;
        held.push(entry(alloc, name.as_str(), text.as_bytes())?)?;
    }
    let name = format!(in alloc; "h{count}")?;
    held.push(entry(alloc, name.as_str(), last.as_bytes())?)?;
    Ok(held)
}

#[test]
fn headers_are_read_and_their_faults_stand_in_them(rt: HostRuntime) -> Result<(), Fail> {
    let rows = [
        (32, "", 0, ""),
        (33, "", 1, "h32:1:2: L4\n"),
        (2, "int x;", 1, "h2:1:6: Y1\n"),
        (1, "int f();", 0, ""),
        (1, "class A;", 1, "h1:1:1: N0\n"),
        (1, "\n /* ", 1, "h1:2:2: L2\n"),
        (1, "#include \"a.h\"", 3, "mmc: no file a.h\n"),
    ];
    for (count, last, wanted, message) in rows {
        let held = chain(rt.alloc(), count, last)?;
        let (status, said) = link_files(rt.alloc(), held)?;
        assert_eq!(rt; status, wanted);
        assert_eq!(rt; said.as_slice(), message.as_bytes());
    }
    Ok(())
}

/// A comment behind a directive is a piece like any other, after the text of the file that is included.
#[test]
fn a_comment_behind_a_directive_has_its_own_faults(rt: HostRuntime) -> Result<(), Fail> {
    let rows: [(&[u8], &[u8], u8, &str); 10] = [
        (b"#pragma once // \xe9", b"", 1, "m.cc:1:17: L1\n"),
        (b"#pragma once //// \xe9", b"", 1, "m.cc:1:19: L1\n"),
        (b"#pragma once / \xe9", b"", 1, "m.cc:1:1: L5\n"),
        (b"#define x // \xe9", b"", 1, "m.cc:1:1: L5\n"),
        (b"#include // \"a.h\"", b"", 1, "m.cc:1:1: L5\n"),
        (b"#include \"a.h\" // \xe9", b"", 1, "m.cc:1:19: L1\n"),
        (b"#include \"a.h\" // \xe9", b"\n /*", 1, "a.h:2:2: L2\n"),
        (
            b"#include \"a.h\" // \"\nint main() { return 0; }",
            b"",
            0,
            "",
        ),
        (b"#include \"a//h\"", b"", 3, "mmc: no file a//h\n"),
        (b"#include \"a.h\" \"// \xe9", b"", 1, "m.cc:1:1: L5\n"),
    ];
    for (unit, header, wanted, message) in &rows {
        let mut held = Vec::new(rt.alloc());
        held.push(entry(rt.alloc(), "m.cc", *unit)?)?;
        held.push(entry(rt.alloc(), "a.h", *header)?)?;
        let (status, said) = link_files(rt.alloc(), held)?;
        assert_eq!(rt; status, *wanted);
        assert_eq!(rt; said.as_slice(), message.as_bytes());
    }
    Ok(())
}

#[test]
fn a_unit_has_at_most_a_mebibyte_with_its_headers(rt: HostRuntime) -> Result<(), Fail> {
    let unit: &[u8] = b"#include \"a.h\"\nint main() { return 0; }";
    for (more, wanted, message) in [(0, 0, ""), (1, 1, "m.cc:1:1: L6\n")] {
        let mut held = Vec::new(rt.alloc());
        held.push(entry(rt.alloc(), "m.cc", unit)?)?;
        let mut header = Vec::new(rt.alloc());
        let room = 1_048_576usize.saturating_sub(unit.len());
        header.resize(room.saturating_add(more), b' ')?;
        held.push((String::from_str(rt.alloc(), "a.h")?, header))?;
        let (status, said) = link_files(rt.alloc(), held)?;
        assert_eq!(rt; status, wanted);
        assert_eq!(rt; said.as_slice(), message.as_bytes());
    }
    Ok(())
}
