//! Laws of the definitions, for callers to cite. They do nothing.
ghost use Rattle.std.specs.Prelude.{◌≡◌, ℕ, List};
ghost use Rattle.session.specs.Frames.{IsFramed, StopsAt};
ghost use Rattle.session.specs.declared.frame.FrameFault.{FrameFault};

/// The bytes of a session file are the frames of one list of datagrams at most, and bytes that are
/// some datagrams' frames stop at no fault.
pub fn one_session()
    ensures only { (x : List ℕ) (s t : List (List ℕ)) → IsFramed s x → IsFramed t x
        → s ≡ t }
    ensures whole { (x : List ℕ) (s : List (List ℕ)) (fault : FrameFault)
        → IsFramed s x → ¬ StopsAt fault x }
{}
