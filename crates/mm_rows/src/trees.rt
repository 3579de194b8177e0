// The tree of each form of expression, written with parentheses around each tree that has parts.

use mm_base::sure::SureFiles;
use mm_parse_expr::expr;
use mm_syntax::expr::{Expr, ExprKind};
use mm_syntax::name::{
    AssignOperator, BinaryOperator, MemberOperator, Name, StepOperator, UnaryOperator,
};
use mm_token::read::get_tokens;
use std::alloc::{AllocError, Global};
use std::test::Fail;

fn binary(operator: BinaryOperator) -> &'static str {
    match operator {
        BinaryOperator::Or => "||",
        BinaryOperator::And => "&&",
        BinaryOperator::Equal => "==",
        BinaryOperator::NotEqual => "!=",
        BinaryOperator::Less => "<",
        BinaryOperator::Greater => ">",
        BinaryOperator::LessOrEqual => "<=",
        BinaryOperator::GreaterOrEqual => ">=",
        BinaryOperator::Plus => "+",
        BinaryOperator::Minus => "-",
        BinaryOperator::Times => "*",
        BinaryOperator::Divide => "/",
        BinaryOperator::Remainder => "%",
    }
}

fn assigning(operator: AssignOperator) -> &'static str {
    match operator {
        AssignOperator::Set => "=",
        AssignOperator::Plus => "+=",
        AssignOperator::Minus => "-=",
        AssignOperator::Times => "*=",
        AssignOperator::Divide => "/=",
        AssignOperator::Remainder => "%=",
    }
}

fn unary(operator: UnaryOperator) -> &'static str {
    match operator {
        UnaryOperator::Plus => "+",
        UnaryOperator::Minus => "-",
        UnaryOperator::Not => "!",
        UnaryOperator::Indirection => "*",
        UnaryOperator::AddressOf => "&",
        UnaryOperator::Increment => "++",
        UnaryOperator::Decrement => "--",
    }
}

fn show_name(name: &Name, out: &mut String) -> Result<(), AllocError> {
    out.push_str(name.text.as_str())
}

fn show_scope(class: &Option<Name>, out: &mut String) -> Result<(), AllocError> {
    if let Some(class) = class {
        show_name(class, out)?;
        out.push_str("::")?;
    }
    Ok(())
}

#[cycle(show)]
fn show_all(list: &[Expr], out: &mut String) -> Result<(), AllocError> {
    for tree in list {
        out.push_str(" ")?;
        show(tree, out)?;
    }
    out.push_str(")")
}

#[cycle(show)]
fn show(tree: &Expr, out: &mut String) -> Result<(), AllocError> {
    match &tree.kind {
        ExprKind::Number(number) => out.push_str(number.text.as_str()),
        ExprKind::True => out.push_str("true"),
        ExprKind::False => out.push_str("false"),
        ExprKind::This => out.push_str("this"),
        ExprKind::Name(text) => out.push_str(text.as_str()),
        ExprKind::Scoped(class, word) => {
            show_name(class, out)?;
            out.push_str("::")?;
            show_name(word, out)
        }
        ExprKind::Unary(operator, x) => {
            out.push_str("(")?;
            out.push_str(unary(*operator))?;
            show(x.get(), out)?;
            out.push_str(")")
        }
        ExprKind::Binary(a, operator, _, b) => {
            out.push_str("(")?;
            show(a.get(), out)?;
            out.push_str(binary(*operator))?;
            show(b.get(), out)?;
            out.push_str(")")
        }
        _ => show_longer(tree, out),
    }
}

#[cycle(show)]
fn show_longer(tree: &Expr, out: &mut String) -> Result<(), AllocError> {
    match &tree.kind {
        ExprKind::Assign(a, operator, _, b) => {
            out.push_str("(")?;
            show(a.get(), out)?;
            out.push_str(assigning(*operator))?;
            show(b.get(), out)?;
            out.push_str(")")
        }
        ExprKind::Choose(a, _, b, c) => {
            out.push_str("(")?;
            show(a.get(), out)?;
            out.push_str("?")?;
            show(b.get(), out)?;
            out.push_str(":")?;
            show(c.get(), out)?;
            out.push_str(")")
        }
        _ => show_postfix(tree, out),
    }
}

#[cycle(show)]
fn show_postfix(tree: &Expr, out: &mut String) -> Result<(), AllocError> {
    match &tree.kind {
        ExprKind::Step(x, operator, _) => {
            out.push_str("(")?;
            show(x.get(), out)?;
            let mark = match operator {
                StepOperator::Increment => "++)",
                StepOperator::Decrement => "--)",
            };
            out.push_str(mark)
        }
        ExprKind::Call(x, args) => {
            out.push_str("(")?;
            show(x.get(), out)?;
            show_all(args.as_slice(), out)
        }
        ExprKind::Member(x, operator, _, class, word) => {
            out.push_str("(")?;
            show(x.get(), out)?;
            let mark = match operator {
                MemberOperator::Dot => ".",
                MemberOperator::Arrow => "->",
            };
            out.push_str(mark)?;
            show_scope(class, out)?;
            show_name(word, out)?;
            out.push_str(")")
        }
        ExprKind::Cast(class, x) => {
            out.push_str("(cast ")?;
            show_name(class, out)?;
            out.push_str(" ")?;
            show(x.get(), out)?;
            out.push_str(")")
        }
        ExprKind::New(class) => {
            out.push_str("new ")?;
            show_name(class, out)
        }
        ExprKind::Make(class, args) => {
            out.push_str("(new ")?;
            show_name(class, out)?;
            show_all(args.as_slice(), out)
        }
        _ => Ok(()),
    }
}

/// The tree of the expression that begins at a token of the text.
fn shown(alloc: Global, text: &str, at: usize) -> Result<String, AllocError> {
    let bytes = Vec::from_slice(alloc, text.as_bytes())?;
    let mut held = Vec::new(alloc);
    held.push((String::from_str(alloc, "m.cc")?, bytes))?;
    let mut files = SureFiles { held };
    let mut out = String::new(alloc);
    let Ok(tokens) = get_tokens(alloc, &mut files, "m.cc") else {
        return Ok(out);
    };
    if at > tokens.list.as_slice().len() {
        return Ok(out);
    }
    if let Ok((tree, _)) = expr(alloc, &tokens, at) {
        show(&tree, &mut out)?;
    }
    Ok(out)
}

#[test]
fn chains_group_from_the_left_and_by_precedence(rt: HostRuntime) -> Result<(), Fail> {
    let rows = [
        ("a - b - c", "((a-b)-c)"),
        ("a + b * c", "(a+(b*c))"),
        ("(a + b) * c", "((a+b)*c)"),
        ("a / b % c", "((a/b)%c)"),
        ("a < b + c", "(a<(b+c))"),
        ("a > b <= c >= d", "(((a>b)<=c)>=d)"),
        ("a == b < c != d", "((a==(b<c))!=d)"),
        ("a || b && c == d", "(a||(b&&(c==d)))"),
        ("a ? b : c ? d : e", "(a?b:(c?d:e))"),
        ("a || b ? c : d = e", "((a||b)?c:(d=e))"),
        ("a = b += c -= d", "(a=(b+=(c-=d)))"),
        ("a *= b /= c %= d", "(a*=(b/=(c%=d)))"),
    ];
    for (text, wanted) in rows {
        let got = shown(rt.alloc(), text, 0)?;
        assert_eq!(rt; got.as_str(), wanted);
    }
    Ok(())
}

#[test]
fn each_form_has_its_tree(rt: HostRuntime) -> Result<(), Fail> {
    let rows = [
        ("((7))", 0, "7"),
        ("- + ! * & ++ -- x", 0, "(-(+(!(*(&(++(--x)))))))"),
        ("- x ++", 0, "(-(x++))"),
        ("x -- . m -> n", 0, "(((x--).m)->n)"),
        ("f(1u, true, this)", 0, "(f 1u true this)"),
        ("f()()", 0, "((f))"),
        ("a * f(b, c + d)", 0, "(a*(f b (c+d)))"),
        ("class K ; new K", 3, "new K"),
        ("class K ; new K()", 3, "(new K)"),
        ("class K ; new K(1, false)", 3, "(new K 1 false)"),
        ("class K ; K::m(x)", 3, "(K::m x)"),
        ("class K ; x.K::m", 3, "(x.K::m)"),
        ("class K ; dynamic_cast<K*>(p)->m", 3, "((cast K p)->m)"),
    ];
    for (text, at, wanted) in rows {
        let got = shown(rt.alloc(), text, at)?;
        assert_eq!(rt; got.as_str(), wanted);
    }
    Ok(())
}
