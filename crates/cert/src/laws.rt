//! Laws of the definitions, for callers to cite. They do nothing.
ghost use Rattle.std.specs.Prelude.{◌≡◌, ◌↔◌, true, ℕ, List};
ghost use Rattle.reception.specs.declared.scope.Identity.{Identity};
ghost use Rattle.reception.specs.Symbols.{Symbol};
ghost use Rattle.reception.specs.Reception.{with_fti};
ghost use Rattle.reception.specs.First.{TellsTheFirst};
ghost use Rattle.reception.specs.Order.{TellsInOrder};
ghost use Rattle.cert.specs.declared.verdict.Verdict.{Verdict as VerdictValue};
ghost use Rattle.certificate.specs.Certificate.{Certificate as CertificateValue, named_as, is_for};
ghost use Rattle.cert.specs.Verdict.{uncertified, IsVerdict, AreOneVerdict};
ghost use Rattle.cert.specs.Columns.{TellsFirstWrong};

/// An identity's packets in a session, an object and a certificate have one verdict: two that meet
/// its definition are both yes, or both no for one reason. So `check` says yes exactly where the
/// certificate is one.
pub fn one_verdict()
    ensures { (who : Identity) (datagrams : List (List ℕ)) (object : List ℕ)
        (z : CertificateValue) (a b : VerdictValue)
        → IsVerdict who datagrams object z a
        → IsVerdict who datagrams object z b
        → AreOneVerdict a b }
{}

/// The identity's own name changes no verdict: a certificate without a name has the same as with
/// that name.
pub fn own_name_changes_nothing()
    ensures { (who : Identity) (datagrams : List (List ℕ)) (object : List ℕ)
        (z : CertificateValue) (v : VerdictValue)
        → is_for who z.name ≡ true
        → IsVerdict who datagrams object z v
        ↔ IsVerdict who datagrams object (named_as who z) v }
{}

/// The reason of a check at a place is the one at the least place that has one, and there the first
/// in the order of the definition.
pub fn first_reason()
    ensures { (who : Identity) (z : CertificateValue)
        → TellsTheFirst (uncertified z) (with_fti who z.fti) }
{}

/// At one place a check's reasons come in this order: no packet, another FTI in a carrier, a symbol
/// of another length, out of range, a symbol that isn't certified. Each is told exactly where it
/// holds and none before it does.
pub fn reason_order()
    ensures { (z : CertificateValue) → TellsInOrder (uncertified z) }
{}

/// The column that a check tells of a symbol is the least in which it isn't the certified one, and
/// it tells one exactly where there is one.
pub fn first_column()
    ensures { (z : CertificateValue) (earlier : List Symbol) (s : Symbol)
        → TellsFirstWrong z earlier s }
{}
