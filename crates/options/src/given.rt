// The texts that a caller gives as names, or that a page has as such.
ghost use Rattle.std.specs.Prelude.{◌≡◌};
ghost use Rattle.names.specs.Names.{name_of};
ghost use Rattle.options.specs.Giving.{fault_at, pin_fault, unless};

use names::{Name, is_foreign, is_valid_property_mangle_cache_target};
use pages::Refusal;

// A refusal of a name tells the node that has it; no node has what a caller gives, so the place is 0.
pub(crate) const NO_NODE: usize = 0;

// The record of a name, or what is wrong with it, told at a node: that it is too long, or else that it is foreign.
pub fn checked_name<'b>(node: usize, text: &[u8]) -> Result<Name, Refusal<'b>>
    ensures { result ≡ unless (fault_at node text.now) (name_of text.now) }
{
    let name = Name::new(text).ok_or(Refusal::Long(node))?;
    if is_foreign(text) {
        return Err(Refusal::Foreign(node));
    }
    Ok(name)
}

// A name and its pin. That one of them is too long is told first, and then that one of them is foreign.
pub(crate) fn checked_pin<'b>(text: &'b [u8], pin: &'b [u8]) -> Result<(Name, Name), Refusal<'b>>
    ensures { result ≡ unless (pin_fault text.entry pin.entry) (name_of text.now, name_of pin.now) }
{
    let name = Name::new(text).ok_or(Refusal::Long(NO_NODE))?;
    let target = Name::new(pin).ok_or(Refusal::Long(NO_NODE))?;
    if is_foreign(text) || is_foreign(pin) {
        return Err(Refusal::Foreign(NO_NODE));
    }
    if !is_valid_property_mangle_cache_target(pin) {
        return Err(Refusal::BadPin(text, pin));
    }
    Ok((name, target))
}
