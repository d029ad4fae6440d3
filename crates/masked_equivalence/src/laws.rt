//! Laws of the definitions, each the contract of a function that does nothing.
ghost use Rattle.std.specs.Prelude.{◌≡◌, false};
ghost use Rattle.masked_equivalence.specs.Mask.{is_message, masked};
ghost use Rattle.message_pools.specs.Item.{IsValidItem};
ghost use Rattle.message_pools.specs.declared.item.Item.{Item};
ghost use Rattle.message_pools.specs.declared.item.Item.TheVariants as item;
ghost use Rattle.of10_messages.specs.Wire.{message_kind};
ghost use Rattle.of10_messages.specs.declared.message.Message.{Message};

/// A mask is its own mask.
pub fn masking_twice_is_masking_once()
    ensures { (i : Item) → masked (masked i) ≡ masked i }
{}

/// The mask of a valid item is valid.
pub fn a_mask_keeps_validity()
    ensures { (i : Item) → IsValidItem i → IsValidItem (masked i) }
{
    of10_messages::laws::lengths_of_messages();
}

/// What is alike to a message is a message of its type. Any other item is alike to itself alone.
pub fn alike_items_are_of_one_kind()
    ensures messages { (m : Message) (i : Item) → masked (item.Message m) ≡ masked i
        → (other : Message) × (i ≡ item.Message other) × (message_kind other ≡ message_kind m) }
    ensures others { (i other : Item) → is_message i ≡ false → masked i ≡ masked other → i ≡ other }
{}
