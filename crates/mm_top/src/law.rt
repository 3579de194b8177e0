// What holds of commands.

ghost use Rattle.mm_top.specs.Laws.{OneDue, OtherStatus};

/// The law: on files and an input that tell what they hold and don't fail, a command comes to one
/// thing. Nothing runs here.
pub fn one_due()
    ensures { OneDue }
{}

/// The law: what a command comes to has none of the statuses 4 and 9. Nothing runs here.
pub fn other_status()
    ensures { OtherStatus }
{}
