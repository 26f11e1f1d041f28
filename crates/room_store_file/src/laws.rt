//! What is hashed of a room shows which room it is. The contract is the law; the function does
//! nothing.
ghost use Rattle.std.specs.Prelude.{◌≡◌, ℕ, List};
ghost use Rattle.room_model.specs.Room.{Room};
ghost use Rattle.room_model.specs.declared.digests.Version.{Version};
ghost use Rattle.room_model.specs.declared.digests.Version.TheVariants.{Second};
ghost use Rattle.room_types.specs.declared.fleet.Terminal.{Terminal};
ghost use Rattle.room_store_file.specs.DigestTexts.{digest_text};

/// No two rooms are hashed as the same bytes by one version, and by the second no two zones.
pub fn a_text_shows_one_room()
    ensures { (version : Version) (zone elsewhere : List ℕ) (terminals others : List Terminal)
        (room another : Room)
        → digest_text version zone terminals room ≡ digest_text version elsewhere others another
        → (terminals ≡ others) × (room ≡ another) × (version ≡ Second → zone ≡ elsewhere) }
{}
