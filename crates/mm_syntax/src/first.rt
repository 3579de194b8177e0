// The text of a tree's first token, and the spelling of operators.
#![tactic(auto, using(crate::proofs::Views::tree_rules))]

ghost use Rattle.std.specs.Prelude.{◌≡◌};
ghost use Rattle.mm_syntax.specs.First.{is_same};

use crate::expr::{Expr, ExprKind, TypeName, TypeNameKind};
use crate::name::{
    AssignOperator, BinaryOperator, Indirection, MemberOperator, StepOperator, UnaryOperator,
};
use mm_base::place::Place;

fn is_same_place(a: Place, b: Place) -> bool
    ensures { result ≡ is_same a b }
{
    a.file == b.file && a.line == b.line && a.col == b.col
}

impl Expr {
    ghost use Rattle.std.specs.Prelude.{◌≡◌};
    ghost use Rattle.mm_syntax.specs.View.{expr_view};
    ghost use Rattle.mm_syntax.specs.First.{first_text as text_at_place, place_of, text_from};

    /// The text of the token at its place.
    #[cycle(first)]
    pub fn first_text(&self) -> &str
        ensures { result.now ≡ text_at_place (expr_view self.now) }
    {
        match &self.kind {
            ExprKind::Number(number) => number.text.as_str(),
            ExprKind::True => "true",
            ExprKind::False => "false",
            ExprKind::This => "this",
            ExprKind::Name(text) => text.as_str(),
            ExprKind::Scoped(class, _) => class.text.as_str(),
            ExprKind::Cast(_, _) => "dynamic_cast",
            ExprKind::Unary(operator, _) => operator.spelling(),
            ExprKind::New(_) | ExprKind::Make(_, _) => "new",
            ExprKind::Step(x, _, _) => x.get().text_after(self.place),
            ExprKind::Binary(x, _, _, _) => x.get().text_after(self.place),
            ExprKind::Choose(x, _, _, _) => x.get().text_after(self.place),
            ExprKind::Assign(x, _, _, _) => x.get().text_after(self.place),
            ExprKind::Call(x, _) => x.get().text_after(self.place),
            ExprKind::Member(x, _, _, _, _) => x.get().text_after(self.place),
        }
    }

    /// The text of the first token of a tree that begins here with this operand.
    #[cycle(first)]
    fn text_after(&self, start: Place) -> &str
        ensures { result.now ≡ text_from start (place_of (expr_view self.now)) (text_at_place (expr_view self.now)) }
    {
        if is_same_place(start, self.place) {
            self.first_text()
        } else {
            "("
        }
    }
}

impl TypeName {
    ghost use Rattle.std.specs.Prelude.{◌≡◌};
    ghost use Rattle.mm_syntax.specs.First.{type_text};

    /// The text of its first token.
    pub fn first_text(&self) -> &str
        ensures { result.now ≡ type_text self.now.kind }
    {
        match &self.kind {
            TypeNameKind::Void => "void",
            TypeNameKind::Bool => "bool",
            TypeNameKind::Int => "int",
            TypeNameKind::Unsigned(_) => "unsigned",
            TypeNameKind::Class(text) => text.as_str(),
        }
    }
}

impl Indirection {
    ghost use Rattle.std.specs.Prelude.{◌≡◌};
    ghost use Rattle.mm_syntax.specs.First.{mark_spelling};

    /// As it stands in a text.
    pub fn spelling(self) -> &'static str
        ensures { result.now ≡ mark_spelling self }
    {
        match self {
            Indirection::Pointer => "*",
            Indirection::Reference => "&",
        }
    }
}

impl UnaryOperator {
    ghost use Rattle.std.specs.Prelude.{◌≡◌};
    ghost use Rattle.mm_syntax.specs.First.{unary_spelling};

    /// As it stands in a text.
    pub fn spelling(self) -> &'static str
        ensures { result.now ≡ unary_spelling self }
    {
        match self {
            UnaryOperator::Plus => "+",
            UnaryOperator::Minus => "-",
            UnaryOperator::Not => "!",
            UnaryOperator::Indirection => "*",
            UnaryOperator::AddressOf => "&",
            UnaryOperator::Increment => "++",
            UnaryOperator::Decrement => "--",
        }
    }
}

impl StepOperator {
    ghost use Rattle.std.specs.Prelude.{◌≡◌};
    ghost use Rattle.mm_syntax.specs.First.{step_spelling};

    /// As it stands in a text.
    pub fn spelling(self) -> &'static str
        ensures { result.now ≡ step_spelling self }
    {
        match self {
            StepOperator::Increment => "++",
            StepOperator::Decrement => "--",
        }
    }
}

impl BinaryOperator {
    ghost use Rattle.std.specs.Prelude.{◌≡◌};
    ghost use Rattle.mm_syntax.specs.First.{binary_spelling};

    /// As it stands in a text.
    pub fn spelling(self) -> &'static str
        ensures { result.now ≡ binary_spelling self }
    {
        match self {
            BinaryOperator::Or => "||",
            BinaryOperator::And => "&&",
            BinaryOperator::Equal => "==",
            BinaryOperator::NotEqual => "!=",
            BinaryOperator::Less => "<",
            BinaryOperator::Greater => ">",
            BinaryOperator::LessOrEqual => "<=",
            BinaryOperator::GreaterOrEqual => ">=",
            BinaryOperator::Plus => "+",
            BinaryOperator::Minus => "-",
            BinaryOperator::Times => "*",
            BinaryOperator::Divide => "/",
            BinaryOperator::Remainder => "%",
        }
    }
}

impl AssignOperator {
    ghost use Rattle.std.specs.Prelude.{◌≡◌};
    ghost use Rattle.mm_syntax.specs.First.{assign_spelling};

    /// As it stands in a text.
    pub fn spelling(self) -> &'static str
        ensures { result.now ≡ assign_spelling self }
    {
        match self {
            AssignOperator::Set => "=",
            AssignOperator::Plus => "+=",
            AssignOperator::Minus => "-=",
            AssignOperator::Times => "*=",
            AssignOperator::Divide => "/=",
            AssignOperator::Remainder => "%=",
        }
    }
}

impl MemberOperator {
    ghost use Rattle.std.specs.Prelude.{◌≡◌};
    ghost use Rattle.mm_syntax.specs.First.{member_spelling};

    /// As it stands in a text.
    pub fn spelling(self) -> &'static str
        ensures { result.now ≡ member_spelling self }
    {
        match self {
            MemberOperator::Dot => ".",
            MemberOperator::Arrow => "->",
        }
    }
}
