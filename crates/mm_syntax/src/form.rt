// The forms of trees, and sets of them.

/// What a tree is for the order in which the language is built. A tree on arithmetic types alone is
/// of no form.
#[derive(Clone, Copy)]
pub enum Form {
    /// Classes and what stands on their objects.
    Object,
    /// Member functions marked `virtual`.
    Virtual,
    /// Parameters marked `virtual`.
    Open,
    /// Constructors, and what calls them by arguments.
    Construct,
    /// `dynamic_cast`.
    Cast,
}

/// A set of forms: which of them are in it.
#[derive(Clone, Copy)]
pub struct Forms {
    pub objects: bool,
    pub virtuals: bool,
    pub opens: bool,
    pub constructs: bool,
    pub casts: bool,
}

impl Forms {
    ghost use Rattle.std.specs.Prelude.{◌≡◌};
    ghost use Rattle.mm_syntax.specs.Forms.{is_among, only, all_forms};

    /// Every form.
    pub fn all() -> Forms
        ensures { result ≡ all_forms }
    {
        Forms {
            objects: true,
            virtuals: true,
            opens: true,
            constructs: true,
            casts: true,
        }
    }

    /// This form alone.
    pub fn only(form: Form) -> Forms
        ensures { result ≡ only form }
    {
        Forms {
            objects: matches!(form, Form::Object),
            virtuals: matches!(form, Form::Virtual),
            opens: matches!(form, Form::Open),
            constructs: matches!(form, Form::Construct),
            casts: matches!(form, Form::Cast),
        }
    }

    /// Whether the form is in the set.
    pub fn has(self, form: Form) -> bool
        ensures { result ≡ is_among self form }
    {
        match form {
            Form::Object => self.objects,
            Form::Virtual => self.virtuals,
            Form::Open => self.opens,
            Form::Construct => self.constructs,
            Form::Cast => self.casts,
        }
    }
}
