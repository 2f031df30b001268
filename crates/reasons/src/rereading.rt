//! Written certificates are read as what they were.

ghost use Rattle.std.specs.Prelude.{◌≡◌, ◌⊎◌, ◌∷◌, ◌++◌, [], ℕ, Some, Result, Ok, Err, IsTrue};
ghost use Rattle.report_line.specs.Names.{is_name};
ghost use Rattle.chains.specs.Processes.{Name as AnyName};
ghost use Rattle.chains.specs.Elements.{name_of};
ghost use Rattle.reasons.specs.declared.certificate.Certificate.{Certificate as AnyCertificate};
ghost use Rattle.reasons.specs.declared.fault.CertificateFault.{CertificateFault};
ghost use Rattle.reasons.specs.declared.fault.CertificateFault.TheVariants.{Memory};
ghost use Rattle.reasons.specs.CertificateText.{certificate_text};
ghost use Rattle.reasons.specs.CertificateReading.{HasKnownNumbers, IsReadAs};

use chains::Chains;

/// The names of known processes are names by the grammar.
fn known_names_are_names(chains: &Chains)
    ensures { (p : ℕ) (name : AnyName) → name_of chains.now.accepted p ≡ Some name → IsTrue (is_name name) }
{
    for process in 0..chains.count() {
        let _name = chains.name_of(process).as_bytes();
    }
}

/// The text of a certificate over these chains, whose numbers are those of known processes and within their limits, is read
/// as just that certificate, want of memory aside; so is one with a line feed behind it, as files have it.
pub fn written_certificates_are_read(chains: &Chains)
    ensures read { (c : AnyCertificate) → HasKnownNumbers chains.now.accepted c → IsReadAs chains.now.accepted (certificate_text chains.now.accepted c) (Ok c) }
    ensures broken { (c : AnyCertificate) → HasKnownNumbers chains.now.accepted c → IsReadAs chains.now.accepted (certificate_text chains.now.accepted c ++ 10 ∷ []) (Ok c) }
    ensures only { (c : AnyCertificate) → HasKnownNumbers chains.now.accepted c → (result : Result AnyCertificate CertificateFault)
        → IsReadAs chains.now.accepted (certificate_text chains.now.accepted c) result → (result ≡ Ok c) ⊎ (result ≡ Err Memory) }
{
    chains.recall_lawful();
    known_names_are_names(chains);
}
