// Trees of expressions, from their tokens and parts.

ghost use Rattle.std.specs.Prelude.{◌≡◌, [], ◌∷◌, ◌++◌, IfOk, OnOk, option_copied};
ghost use Rattle.mm_syntax.specs.Built as b;
ghost use Rattle.mm_parse_expr.specs.Parts.{cast_of, choice_of};

use mm_base::place::Place;
use mm_syntax::expr::{Expr, ExprKind};
use mm_syntax::name::Name;
use mm_syntax::part::{Begun, End, Suffix};
use mm_syntax::taken::{
    assign_operator, binary_operator, leaf_kind, member_operator, name, step_operator,
    unary_operator,
};
use mm_token::token::Token;
use sqlite_items::{Boxed, Items};
use std::alloc::{AllocError, Global};

/// A tree whose text begins at its own first token. Trees are handed on in boxes, so that frames stay small.
fn begun(alloc: Global, kind: ExprKind, start: Place) -> Result<Boxed<Begun>, AllocError>
    ensures { IfOk result (λ v. v ≡ b.begun kind start) }
{
    Boxed::new(
        alloc,
        Begun {
            tree: Expr { kind, place: start },
            start,
        },
    )
}

/// The tree of a number, a word of the language or a name.
pub fn leaf(alloc: Global, token: &Token) -> Result<Boxed<Begun>, AllocError>
    ensures { IfOk result (λ v. v ≡ b.leaf token.now) }
{
    let kind = leaf_kind(alloc, token)?;
    begun(alloc, kind, token.place)
}

/// The tree of an expression in parentheses, of which the first is given.
pub fn enclosed(
    alloc: Global,
    first: &Token,
    inner: Boxed<Begun>,
) -> Result<Boxed<Begun>, AllocError>
    ensures { IfOk result (λ v. v ≡ b.enclosed first.now inner) }
{
    let Begun { tree, .. } = inner.into_inner();
    Boxed::new(
        alloc,
        Begun {
            tree,
            start: first.place,
        },
    )
}

fn operand(alloc: Global, part: Boxed<Begun>) -> Result<Boxed<Expr>, AllocError>
    ensures { IfOk result (λ v. v ≡ part.tree) }
{
    let Begun { tree, .. } = part.into_inner();
    Boxed::new(alloc, tree)
}

/// The tree of a class and a name in it.
pub fn scoped(alloc: Global, class: &Token, word: &Token) -> Result<Boxed<Begun>, AllocError>
    ensures { IfOk result (λ v. v ≡ b.scoped class.now word.now) }
{
    let scope = name(alloc, class)?;
    let member = name(alloc, word)?;
    begun(alloc, ExprKind::Scoped(scope, member), class.place)
}

/// The class of a `dynamic_cast`.
pub fn target(alloc: Global, class: &Token) -> Result<Boxed<Name>, AllocError>
    ensures { IfOk result (λ v. v ≡ b.name_of class.now) }
{
    let class = name(alloc, class)?;
    Boxed::new(alloc, class)
}

/// The tree of a `dynamic_cast`.
pub fn cast(
    alloc: Global,
    word: &Token,
    class: Boxed<Name>,
    inner: Boxed<Begun>,
) -> Result<Boxed<Begun>, AllocError>
    ensures { IfOk result (λ v. v ≡ cast_of word.now class inner) }
{
    let inner = operand(alloc, inner)?;
    begun(alloc, ExprKind::Cast(class.into_inner(), inner), word.place)
}

/// The tree of an operator before its operand.
pub fn prefixed(alloc: Global, op: &Token, inner: Boxed<Begun>) -> Result<Boxed<Begun>, AllocError>
    ensures { IfOk result (λ v. v ≡ b.prefixed op.now inner) }
{
    let inner = operand(alloc, inner)?;
    begun(alloc, ExprKind::Unary(unary_operator(op), inner), op.place)
}

/// The tree of `new`, with arguments in parentheses or without.
pub fn made(
    alloc: Global,
    class: &Token,
    args: Option<Items<Expr>>,
) -> Result<Boxed<ExprKind>, AllocError>
    ensures { IfOk result (λ v. v ≡ b.made class.now args) }
{
    let class = name(alloc, class)?;
    match args {
        None => Boxed::new(alloc, ExprKind::New(class)),
        Some(args) => Boxed::new(alloc, ExprKind::Make(class, args)),
    }
}

/// The tree that begins at the word `new`.
pub fn at_word(
    alloc: Global,
    word: &Token,
    kind: Boxed<ExprKind>,
) -> Result<Boxed<Begun>, AllocError>
    ensures { IfOk result (λ v. v ≡ b.begun kind word.now.place) }
{
    begun(alloc, kind.into_inner(), word.place)
}

/// The tree of an operator between two operands.
pub fn operated(
    alloc: Global,
    left: Boxed<Begun>,
    op: &Token,
    right: Boxed<Begun>,
) -> Result<Boxed<Begun>, AllocError>
    ensures { IfOk result (λ v. v ≡ b.operated left op.now right) }
{
    let start = left.get().start;
    let left = operand(alloc, left)?;
    let right = operand(alloc, right)?;
    begun(
        alloc,
        ExprKind::Binary(left, binary_operator(op), op.place, right),
        start,
    )
}

/// What `?` and the branches add to a condition.
pub fn chosen(
    alloc: Global,
    mark: &Token,
    yes: Boxed<Begun>,
    no: Boxed<Begun>,
) -> Result<Boxed<End>, AllocError>
    ensures { IfOk result (λ v. v ≡ b.chosen mark.now yes no) }
{
    let Begun { tree: yes, .. } = yes.into_inner();
    let Begun { tree: no, .. } = no.into_inner();
    Boxed::new(alloc, End::Choose(mark.place, yes, no))
}

/// What an assigning operator and its right side add to the left one.
pub fn assigned(alloc: Global, op: &Token, right: Boxed<Begun>) -> Result<Boxed<End>, AllocError>
    ensures { IfOk result (λ v. v ≡ b.assigned op.now right) }
{
    let Begun { tree: right, .. } = right.into_inner();
    Boxed::new(alloc, End::Assign(assign_operator(op), op.place, right))
}

/// The tree of an expression from its first part and what ends it.
pub fn ended(
    alloc: Global,
    left: Boxed<Begun>,
    end: Option<Boxed<End>>,
) -> Result<Boxed<Begun>, AllocError>
    ensures { IfOk result (λ v. v ≡ b.ended left end) }
{
    match end {
        None => Ok(left),
        Some(end) => match end.into_inner() {
            End::Choose(place, yes, no) => choice(alloc, left, place, yes, no),
            End::Assign(op, place, right) => {
                let start = left.get().start;
                let left = operand(alloc, left)?;
                let right = Boxed::new(alloc, right)?;
                begun(alloc, ExprKind::Assign(left, op, place, right), start)
            }
        },
    }
}

fn choice(
    alloc: Global,
    left: Boxed<Begun>,
    place: Place,
    yes: Expr,
    no: Expr,
) -> Result<Boxed<Begun>, AllocError>
    ensures { IfOk result (λ v. v ≡ choice_of left place yes no) }
{
    let start = left.get().start;
    let left = operand(alloc, left)?;
    let yes = Boxed::new(alloc, yes)?;
    let no = Boxed::new(alloc, no)?;
    begun(alloc, ExprKind::Choose(left, place, yes, no), start)
}

/// A member, with a class before its name or without.
pub fn member(
    alloc: Global,
    op: &Token,
    class: Option<&Token>,
    word: &Token,
) -> Result<Boxed<Suffix>, AllocError>
    ensures { IfOk result (λ v. v ≡ b.member_of op.now (option_copied class.entry) word.now) }
{
    let word = name(alloc, word)?;
    let class = match class {
        None => None,
        Some(class) => Some(name(alloc, class)?),
    };
    Boxed::new(
        alloc,
        Suffix::Member(member_operator(op), op.place, class, word),
    )
}

/// A call's arguments as a suffix.
pub fn called(alloc: Global, args: Items<Expr>) -> Result<Boxed<Suffix>, AllocError>
    ensures { IfOk result (λ v. v ≡ b.called args) }
{
    Boxed::new(alloc, Suffix::Called(args))
}

/// An operator after its operand as a suffix.
pub fn stepped(alloc: Global, op: &Token) -> Result<Boxed<Suffix>, AllocError>
    ensures { IfOk result (λ v. v ≡ b.stepped op.now) }
{
    Boxed::new(alloc, Suffix::Stepped(step_operator(op), op.place))
}

/// The tree of a postfix expression from what stands before its last suffix, and that.
pub fn with_suffix(
    alloc: Global,
    left: Boxed<Begun>,
    suffix: Boxed<Suffix>,
) -> Result<Boxed<Begun>, AllocError>
    ensures { IfOk result (λ v. v ≡ b.with_suffix left suffix) }
{
    let start = left.get().start;
    let left = operand(alloc, left)?;
    let kind = match suffix.into_inner() {
        Suffix::Called(args) => ExprKind::Call(left, args),
        Suffix::Member(op, place, class, word) => ExprKind::Member(left, op, place, class, word),
        Suffix::Stepped(op, place) => ExprKind::Step(left, op, place),
    };
    begun(alloc, kind, start)
}

/// A list of one expression.
pub fn single(alloc: Global, item: Boxed<Begun>) -> Result<Items<Expr>, AllocError>
    ensures { IfOk result (λ v. v ≡ item.tree ∷ []) }
{
    let Begun { tree, .. } = item.into_inner();
    let mut list = Items::new(alloc);
    list.push(tree)?;
    Ok(list)
}

/// Adds an expression to a list.
pub fn push(list: &mut Items<Expr>, item: Boxed<Begun>) -> Result<(), AllocError>
    ensures { OnOk result (list.new ≡ list.old ++ item.tree ∷ []) }
{
    let Begun { tree, .. } = item.into_inner();
    list.push(tree)?;
    Ok(())
}
