ghost use Rattle.std.specs.Prelude.{◌≡◌, ℕ, IsTrue, List, length, Ok};
ghost use Rattle.codec.specs.Pieces.{AreOf, PartOf, RiseFrom, joined, long_reading, parts_of};
ghost use Rattle.ids.specs.Naming.{name_of_member};
ghost use Rattle.ids.specs.Ordered.{AreInOrder};
ghost use Rattle.codec.specs.Table.{IsSpelled, PacketOf, Spelling, fits_body, is_packet, packet};
ghost use Rattle.codec.specs.declared.body.Body.TheVariants as body;
ghost use Rattle.codec.specs.declared.body.Grant.{Grant};
ghost use Rattle.codec.specs.declared.body.Roster.{Roster};
ghost use Rattle.saved_values.specs.Saved.{IsSavedList};

/// A packet has one spelling, and a spelling one packet; and the packets that have one are those
/// that can be made.
pub fn one_to_one()
    ensures spelling { (a b : List ℕ) → (p : PacketOf) → Spelling a p → Spelling b p → a ≡ b }
    ensures packet { (a : List ℕ) → (p q : PacketOf) → Spelling a p → Spelling a q → p ≡ q }
    ensures made { (a : List ℕ) → (p : PacketOf) → Spelling a p → IsTrue (is_packet p) }
    ensures spelled { (p : PacketOf) → IsTrue (is_packet p) → IsSpelled p }
{}

/// The members of a roster that can be written stand by rising incarnation.
pub fn rosters_rise()
    ensures { (r : Roster) → IsTrue (fits_body (body.Roster r)) → AreInOrder name_of_member r.members }
{}

/// The saved values of a Grant that can be written stand by the order of their places, and are at
/// most 64.
pub fn saved_values_rise()
    ensures { (g : Grant) → IsTrue (fits_body (body.Grant g)) → IsSavedList g.saved }
{}

/// All parts of a packet's spelling, in their order, are read as the packet.
pub fn parts_join()
    ensures joined { (bytes : List ℕ) → (parts : List PartOf) → RiseFrom 0 (parts_of bytes) parts
        → length parts ≡ parts_of bytes → AreOf bytes parts → joined parts ≡ bytes }
    ensures read { (p : PacketOf) → (parts : List PartOf) → IsTrue (is_packet p)
        → RiseFrom 0 (parts_of (packet.write p)) parts → length parts ≡ parts_of (packet.write p)
        → AreOf (packet.write p) parts → long_reading (joined parts) ≡ Ok p }
{}
