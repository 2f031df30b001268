//! The device behind a file of the system.

ghost use Rattle.std.specs.Prelude.{List, ℕ, replicate};
ghost use Rattle.std.proofs.lemmas.List.{length-replicate};
ghost use Rattle.line_disk.specs.Device.{Leaving, Unread, HasItsLength, modelled, KeepsModel, PremiseCanHold, PremiseCanFail, IsWithinModel};

/// What no code can tell of a file. What is proved over any `D: Device` is a theorem for each device, and its premise is that this
/// one keeps the model.
pub trait Device {
    /// What a crash leaves of a file, by the calls that were made on it.
    ghost leaves: { Leaving };

    /// What stands behind what was read, which no code has seen.
    ghost unread: { Unread };

    /// It is as long as it is said to be.
    ghost unread_length: { HasItsLength unread };
}

/// The device that leaves all that the model allows. Its zeros for what was not read say nothing of a file: what is proved over any
/// device holds whatever stands there.
pub struct Modelled;

impl Device for Modelled {
    ghost leaves = { modelled };

    ghost unread = { λ read n. replicate n 0 };

    ghost unread_length = { λ read n. length-replicate n 0 };
}

/// Some device keeps the model, and not each one does.
pub fn the_premise_is_open()
    ensures can_hold { PremiseCanHold }
    ensures can_fail { PremiseCanFail }
{}

/// A device that keeps the model leaves no more than `Modelled` does, so what is proved of crashes for `Modelled` loses nothing.
pub fn modelled_leaves_most<D: Device>()
    ensures { IsWithinModel D.leaves }
{}
