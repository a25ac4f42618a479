// What every run of a part promises, and laws of its calls: specs/Promises.antt, Laws.antt, Selections.antt and Carried.antt
// say it, and the functions below hold it up, so that each proof is asked for.
#![tactic(auto)]

ghost use Rattle.promises.specs.Carried.{StoreKeepsEveryPage, RecallRecallsEveryPage, WakingRecallsEveryPage, ReleaseOfAWriteClearsTheLatch};
ghost use Rattle.promises.specs.Laws.{PowerStoreOffDoesNotStopAStore, NoOtherCutKeeps, IdleCutKeepsEveryPage, ProtectionDoesNotHoldBackARecall, ReadingStatusDoesNotClearTheFailMark, EachAddressHasOnePromisedByte, EachAddressHasOneCurrentByte, PromisesPinTheKeptImage, PromisesPinTheIdleWorkingImage, WakingLeavesTheKeptImage, EveryListOfCallsHasARun, EveryFrameCanBeSentWhole};
ghost use Rattle.promises.specs.Promises.{PromisesHold};
ghost use Rattle.promises.specs.Selections.{ReadGoesOnFromItsAddress, SecureReadDrivesItsPageAndTheSum, WriteThatRollsOver, DirectWriteGoesOn, WriteThatRunsOnGoesOn, RightFrameFillsItsPage, WrongFrameSetsTheFailMark};

// At every moment of every run, in every lawful dialect, above every cell array and at every size, the promises hold.
pub fn promises_hold()
    ensures { PromisesHold }
{}

// Rules that are easily got wrong, as laws of every call.
pub fn readings_hold()
    ensures store_goes_on { PowerStoreOffDoesNotStopAStore }
    ensures no_other_cut_keeps { NoOtherCutKeeps }
    ensures idle_cut_keeps { IdleCutKeepsEveryPage }
    ensures recall_goes_on { ProtectionDoesNotHoldBackARecall }
    ensures fail_mark_stays { ReadingStatusDoesNotClearTheFailMark }
{}

// Every trail pins one byte for each address: the promises leave no choice.
pub fn trail_pins_each_byte()
    ensures promised { EachAddressHasOnePromisedByte }
    ensures current { EachAddressHasOneCurrentByte }
{}

// And so do the promises: they leave no choice of the kept image, of an idle part's working image, or of what a waking leaves.
pub fn promises_pin_the_images()
    ensures kept { PromisesPinTheKeptImage }
    ensures working { PromisesPinTheIdleWorkingImage }
    ensures waking { WakingLeavesTheKeptImage }
{}

// What whole selections drive and put, told without their phases.
pub fn selections_hold()
    ensures read { ReadGoesOnFromItsAddress }
    ensures secure_read { SecureReadDrivesItsPageAndTheSum }
    ensures rolled_write { WriteThatRollsOver }
    ensures direct_write { DirectWriteGoesOn }
    ensures run_on_write { WriteThatRunsOnGoesOn }
    ensures right_frame { RightFrameFillsItsPage }
    ensures wrong_frame { WrongFrameSetsTheFailMark }
{}

// What is begun is carried through: stores, recalls and wakings page by page, and the latch over a whole selection.
pub fn carried_through()
    ensures store { StoreKeepsEveryPage }
    ensures recall { RecallRecallsEveryPage }
    ensures waking { WakingRecallsEveryPage }
    ensures latch { ReleaseOfAWriteClearsTheLatch }
{}

// The promises speak of something: every list of calls has a run, and every frame can be sent whole.
pub fn runs_are_there()
    ensures run { EveryListOfCallsHasARun }
    ensures frame { EveryFrameCanBeSentWhole }
{}
