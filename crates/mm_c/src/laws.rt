// Laws of this crate's definitions. Each is the contract of a function that does nothing.

ghost use Rattle.mm_c.specs.Laws.{OneProgram, WrittenIsSpelled, SpelledIsNotRefused, OneRefusal, LoadsWhatWasStored, LoadsAsBefore, StoreKeepsSizes, FreshIsZero, LoadsInBlock, StoresInBlock, NoOtherLoad, StuckStays, StuckAlike};
ghost use Rattle.mm_c.specs.Lexing.{WhiteStep, TokenStep, TokenEnd, TreesAreJudged};
ghost use Rattle.mm_c.specs.Settles.{Settles, CallsStep, LoopsStep};
ghost use Rattle.mm_c.specs.Examples.{SumIsPut, BadSumIsStuck, NothingIsNoProgram, UndeclaredIsRefused, CellsRuns, OpenCallRuns, LoopRuns, MisalignedRuns, AtNullRuns, OutOfBlockRuns, OtherKindRuns, PastBlockRuns, NoBlockRuns, QuotientsRuns, LeastRemainderRuns, ByZeroRuns, LongSumRuns, TrapRuns, BadTrapRuns, NoResultRuns, LocalsAnewRuns};

/// The law: a text spells at most one program.
pub fn one_program()
    ensures { OneProgram }
{}

/// The law: what is written of a well-formed program, in the layout of `Printing`, spells it.
pub fn written_is_spelled()
    ensures { WrittenIsSpelled }
{}

/// The laws of tokens: how they are taken one by one.
pub fn tokens()
    ensures white { WhiteStep }
    ensures next { TokenStep }
    ensures last { TokenEnd }
{}

/// The laws of refusals: a text is refused at most at one place, and at none where it spells a program.
pub fn refusals()
    ensures spelled { SpelledIsNotRefused }
    ensures once { OneRefusal }
    ensures judged { TreesAreJudged }
{}

/// The laws of runs: with a step more, what came to its end stays; calls and loops as deep as the clock allows.
pub fn runs()
    ensures settles { Settles }
    ensures calls { CallsStep }
    ensures loops { LoopsStep }
{}

/// The laws of the memory: what a load gives after a store and in a new block, and which are stuck.
pub fn memory_laws()
    ensures stored { LoadsWhatWasStored }
    ensures elsewhere { LoadsAsBefore }
    ensures sizes { StoreKeepsSizes }
    ensures fresh { FreshIsZero }
    ensures loads_within { LoadsInBlock }
    ensures stores_within { StoresInBlock }
    ensures across { NoOtherLoad }
    ensures for_ever { StuckStays }
    ensures alike { StuckAlike }
{}

/// Texts, and what they are: programs with these runs, or refused at these places.
pub fn examples()
    ensures sum { SumIsPut }
    ensures bad_sum { BadSumIsStuck }
    ensures nothing { NothingIsNoProgram }
    ensures undeclared { UndeclaredIsRefused }
    ensures cells { CellsRuns }
    ensures open_call { OpenCallRuns }
    ensures turns { LoopRuns }
    ensures misaligned { MisalignedRuns }
    ensures at_null { AtNullRuns }
    ensures out_of_block { OutOfBlockRuns }
    ensures other_kind { OtherKindRuns }
    ensures past_block { PastBlockRuns }
    ensures no_block { NoBlockRuns }
    ensures quotients { QuotientsRuns }
    ensures least_remainder { LeastRemainderRuns }
    ensures by_zero { ByZeroRuns }
    ensures long_sum { LongSumRuns }
    ensures trap { TrapRuns }
    ensures bad_trap { BadTrapRuns }
    ensures no_result { NoResultRuns }
    ensures locals_anew { LocalsAnewRuns }
{}
