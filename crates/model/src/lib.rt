// The rules of the cache on plain lists are in specs/. The functions here carry the theorems about them: a
// contract holds because it is proved, though the function does nothing.

#![tactic(auto)]

ghost use Rattle.interface.specs.Keys.{keying};
ghost use Rattle.model.specs.Examples.{Examples, FinerExamples};
ghost use Rattle.model.specs.Laws.{LawOfRuns};
ghost use Rattle.model.specs.Promises.{LawsOfHands};
ghost use Rattle.model.specs.Standing.{LawsOfStates};

use interface::Key;

// The worked examples come out as written.
pub fn examples_stand()
    ensures rough { Examples }
    ensures finer { FinerExamples }
{}

// What the hot hand, the cold hand and shrinking promise, whatever the keys, the records and the call.
pub fn hands_keep_their_promises<K, V>()
    ensures { LawsOfHands K V }
{}

// What a fresh state has and every call keeps: no two keys are equal, every resident lies where its state and
// its weight have it, and target, ghosts and entries are within their bounds.
pub fn states_stand<K: Key, V>()
    ensures { LawsOfStates K V (keying K.Key) }
{}

// The law of runs: after every list of calls from a fresh cache on, no record is lost, no overweight was added,
// and every ticket is accounted for.
pub fn nothing_is_lost<K: Key, V>()
    ensures { LawOfRuns K V (keying K.Key) }
{}
