//! The text that a question for a line is answered with: that of the certificate which the rounds choose.

ghost use Rattle.std.specs.Prelude.{◌≡◌, ℕ, List, IfSome};
ghost use Rattle.chains.specs.Failures.{IsFailedSet};
ghost use Rattle.chains.specs.Held.{held_of};
ghost use Rattle.chains.specs.Processes.{known};
ghost use Rattle.knows_row.specs.Needs.{IsTableOf};
ghost use Rattle.reasons.specs.CertificateText.{certificate_text};
ghost use Rattle.line_answer.specs.Questions.{IsAnswer};
ghost use Rattle.line_answer.specs.working.Questions.{IsTextFor};

use chains::{Chains, Failed};
use garbage_line::garbage_by;
use knows_row::Needs;
use propagate::certificate_by;
use reasons::{Certificate, to_json};
use report_line::{Call, Names, Text};

/// The text of a certificate, in no more room than it takes: a pass keeps it to the end.
fn written(chains: &Chains, certificate: &Certificate) -> Option<Text>
    ensures { IfSome result (λ text. text ≡ certificate_text chains.now.accepted certificate.now) }
{
    match to_json(chains, certificate) {
        Ok(text) => {
            let mut bytes = text.into_bytes();
            bytes.shrink_to_fit();
            Some(Text::from_vec(bytes))
        }
        Err(_) => None,
    }
}

/// The text for these failed processes.
fn text_for_set(chains: &Chains, needs: Option<&Needs<'_>>, failed: &Failed) -> Option<Text>
    requires { IfSome needs (λ n. IsTableOf chains.now.accepted n.now) }
    ensures { IfSome result (λ text. (names : List (List ℕ)) → IsFailedSet chains.now.accepted names failed.now → IsTextFor (held_of chains.now) names text) }
{
    match certificate_by(chains, needs, failed) {
        Ok(certificate) => written(chains, &certificate),
        Err(_) => None,
    }
}

/// The text for the processes of these names, if they are known.
fn text_for_names(chains: &Chains, needs: Option<&Needs<'_>>, names: &Names) -> Option<Text>
    requires { IfSome needs (λ n. IsTableOf chains.now.accepted n.now) }
    ensures { IfSome result (IsTextFor (held_of chains.now) names.now) }
{
    match Failed::from_names(chains, names) {
        Ok(failed) => text_for_set(chains, needs, &failed),
        Err(_) => None,
    }
}

/// The text for all processes.
fn text_for_all(chains: &Chains, needs: Option<&Needs<'_>>) -> Option<Text>
    requires { IfSome needs (λ n. IsTableOf chains.now.accepted n.now) }
    ensures { IfSome result (IsTextFor (held_of chains.now) (known chains.now.accepted)) }
{
    match garbage_by(chains, needs) {
        Ok(certificate) => written(chains, &certificate),
        Err(_) => None,
    }
}

/// The text of the line that the call asks for, if it asks for one, whose names are known, and memory suffices for it: by a table of needs of
/// these chains, if there is one.
pub fn answer_for(chains: &Chains, needs: Option<&Needs<'_>>, call: &Call) -> Option<Text>
    requires { IfSome needs (λ n. IsTableOf chains.now.accepted n.now) }
    ensures { IfSome result (IsAnswer (held_of chains.now) call.now) }
{
    match call {
        Call::Line(names) => text_for_names(chains, needs, names),
        Call::Garbage => text_for_all(chains, needs),
        Call::Report(_)
        | Call::Settle { .. }
        | Call::State(_)
        | Call::Bye
        | Call::Bad(_)
        | Call::Unread => None,
    }
}
