//! The parts of a save file.
ghost use Rattle.std.specs.Prelude.{◌≡◌, ◌≤◌};
ghost use Rattle.save_text.specs.Parts.{rank_of};

/// What was read last: nothing, the first line, the sizes, the marks, a dead switch, an owner, a byte given, a record, or the
/// end. The parts stand in this order.
#[derive(Clone, Copy, PartialEq, Eq, Debug)]
pub enum Part {
    Top,
    Head,
    Config,
    Marks,
    Dead,
    Owners,
    Given,
    Committed,
    End,
}

impl Part {
    /// How many parts stand before it.
    pub fn rank(self) -> u8
        ensures rank { result ≡ rank_of self }
        ensures few { result ≤ 8 }
    {
        match self {
            Part::Top => 0,
            Part::Head => 1,
            Part::Config => 2,
            Part::Marks => 3,
            Part::Dead => 4,
            Part::Owners => 5,
            Part::Given => 6,
            Part::Committed => 7,
            Part::End => 8,
        }
    }
}
