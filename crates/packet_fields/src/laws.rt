ghost use Rattle.std.specs.Prelude.{ℕ, Bool, List, Option};
ghost use Rattle.ids.specs.Names.{Grant};
ghost use Rattle.packet_fields.specs.Format.{OneSpelling, number};
ghost use Rattle.packet_fields.specs.Fields as field;
ghost use Rattle.ids.specs.declared.outcome.Progress.{Progress};

/// Each field has one spelling: bytes spell at most one value and a value has at most one spelling;
/// what is spelled is read and what is read is spelled; and what can be written is spelled by what
/// is written.
pub fn one_spelling()
    ensures byte { OneSpelling (number 1) }
    ensures two_bytes { OneSpelling (number 2) }
    ensures four_bytes { OneSpelling (number 4) }
    ensures eight_bytes { OneSpelling (number 8) }
    ensures worker { OneSpelling field.worker }
    ensures other_worker { (own : ℕ) → OneSpelling (field.other_worker own) }
    ensures epoch { OneSpelling field.epoch }
    ensures actor { OneSpelling field.actor }
    ensures address { (allowed : ℕ → Bool) → OneSpelling (field.address allowed) }
    ensures counted { OneSpelling field.counted }
    ensures hop { OneSpelling field.hop }
    ensures raised { OneSpelling field.raised }
    ensures below { (next : ℕ) → OneSpelling (field.below next) }
    ensures pieces { OneSpelling field.pieces }
    ensures piece_of { (pieces : ℕ) → OneSpelling (field.piece_of pieces) }
    ensures part { (pieces number : ℕ) → OneSpelling (field.part pieces number) }
    ensures grant { OneSpelling field.grant }
    ensures step { OneSpelling field.step }
    ensures steps { OneSpelling field.steps }
    ensures place { OneSpelling field.place }
    ensures thread { OneSpelling field.thread }
    ensures signed { OneSpelling field.signed }
    ensures numbers { OneSpelling field.numbers }
    ensures task { OneSpelling field.task }
    ensures outcome { OneSpelling field.outcome }
    ensures progress { OneSpelling field.progress }
    ensures slot { OneSpelling field.slot }
    ensures slots { OneSpelling field.slots }
    ensures goes_to { (next : ℕ) → OneSpelling (field.goes_to next) }
    ensures status { (own : ℕ) → OneSpelling (field.status own) }
    ensures member { (last : Option ℕ) → OneSpelling (field.member last) }
    ensures members { OneSpelling field.members }
    ensures frame { (next : ℕ) → (last : Option ℕ) → OneSpelling (field.frame next last) }
    ensures frames { (progress : Progress) → (next : ℕ) → OneSpelling (field.frames progress next) }
    ensures stolen { (next : ℕ) → (last : Option Grant) → OneSpelling (field.stolen next last) }
    ensures records { (progress : Progress) → (next : ℕ) → OneSpelling (field.records progress next) }
    ensures saved_place { OneSpelling field.saved_place }
    ensures saved_value { (last : Option (List ℕ)) → OneSpelling (field.saved_value last) }
    ensures saved_values { OneSpelling field.saved_values }
    ensures no_values { OneSpelling field.no_values }
{}
