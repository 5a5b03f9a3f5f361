// The register at an address (01, "Register addresses"), found by the part of the I/O page it lies in.

#![tactic(auto)]

ghost use Rattle.std.specs.Prelude.{◌≡◌};
ghost use Rattle.rules.specs.Addresses.{in_registers};
ghost use Rattle.decode.specs.Parts.{place_at, mode_at, status_at};

use rules::{Mode, SR0, SR1, SR2, SR3};

// The mode whose registers fill these 64 bytes of the I/O page.
#[tactic(auto, unfolding(crate::specs::Parts::mode_at))]
fn mode_at(part: u32) -> Option<Mode>
    ensures { result ≡ mode_at part }
{
    match part {
        0o7723 => Some(Mode::Kernel),
        0o7722 => Some(Mode::Supervisor),
        0o7776 => Some(Mode::User),
        _ => None,
    }
}

// SR0 to SR3, by their own addresses.
#[tactic(auto, unfolding(crate::specs::Parts::status_at))]
fn status_at(address: u32) -> Option<usize>
    ensures { result ≡ status_at address }
{
    match address {
        0o777572 => Some(SR0),
        0o777574 => Some(SR1),
        0o777576 => Some(SR2),
        0o772516 => Some(SR3),
        _ => None,
    }
}

// The place of the register at an address. A mode has 16 PDRs, and then 16 PARs.
#[tactic(auto, using(crate::proofs::Same::place_by_part), unfolding(crate::specs::Parts::by_part))]
pub fn register_at(address: u32) -> Option<usize>
    ensures { result ≡ place_at address }
{
    if address % 2 == 1 {
        return None;
    }
    let Some(mode) = mode_at(address / 64) else {
        return status_at(address);
    };
    Some(mode.first_page() + (address / 2 % 16) as usize + 48 * (1 - address / 32 % 2) as usize)
}

// rule 7: a byte lies in one of the 100 registers' words
#[tactic(auto, using(crate::proofs::Same::found))]
pub fn in_registers(byte: u32) -> bool
    ensures { result ≡ in_registers byte }
{
    register_at(byte / 2 * 2).is_some()
}
