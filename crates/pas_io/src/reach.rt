//! How far sources were read.
ghost use Rattle.std.specs.Prelude.{◌≡◌, IsTrue, IsFalse};
ghost use Rattle.pas_io.specs.Reached.{HasMet, HasGone};

/// How far a source was read.
#[derive(Clone, Copy, Debug, PartialEq, Eq, Drop)]
pub enum Reach {
    /// No read met the end yet.
    Within,
    /// The last read met the end: it had a place in its buffer, and answered 0.
    AtEnd,
    /// A read was made after one that met the end.
    Beyond,
}

impl Reach {
    /// How far it is after one more read, which met the end or didn't.
    pub(crate) fn after(self, met: bool) -> Reach
        ensures met { IsTrue met → HasMet self result }
        ensures gone { IsFalse met → HasGone self result }
    {
        match self {
            Reach::Within if met => Reach::AtEnd,
            Reach::Within => Reach::Within,
            Reach::AtEnd | Reach::Beyond => Reach::Beyond,
        }
    }
}
