//! Laws of the format: each is the contract of a function with nothing to do.

ghost use Rattle.std.specs.Prelude.{◌≡◌, ◌++◌, length, true, false};
ghost use Rattle.jnode.specs.Header.{is_good};
ghost use Rattle.jnode.specs.Reading.{seen_of};
ghost use Rattle.jnode.specs.Writing.{header_bytes, clean_marker, padding_node, canonical_entry, canonical_inode, filled};
ghost use Rattle.jnode.specs.Vectors.{little_marker, big_marker, entry_a, entry_a_big, obsolete_a, inode_2, no_length, length_13, named_a, new_file, hidden_entry, weak_write};
ghost use Rattle.jnode.specs.Weak.{is_weak};
ghost use Rattle.jnode.specs.Laws.{NumberReadsBack, NumberIsSpelled, GoodIsComputed, HeaderIsTwelveBytes, ErasedIsNotGood, ReadsOne, WritableIsComputed, WrittenReads, WrittenIsTile, WrittenIsNotErased, MarkerIsTile, PaddingIsTile, TornHeaderIsNone, TornNodeIsDamaged, TornIsTile, CutBehindKeepsHeader, TornMarkerIsNone, SeenIsRead, SeenFits, CompressedReadsBack, CompressedIsTile, CompressedFits};

use crate::node::{Damage, Seen};
use crate::order::Endian;

/// A number that fits its bytes is what they contain.
pub fn number_reads_back()
    ensures { NumberReadsBack }
{}

/// The bytes at a place are those of the number that is there.
pub fn number_is_spelled()
    ensures { NumberIsSpelled }
{}

/// Whether a header is good is computed.
#[tactic(auto, using(crate::proofs::HeaderLemmas::good_is_computed))]
pub fn good_is_computed()
    ensures { GoodIsComputed }
{}

/// A tile reads as at most one node.
#[tactic(auto, using(crate::proofs::ReadingLemmas::reads_one))]
pub fn reads_one()
    ensures { ReadsOne }
{}

/// A header is its twelve bytes.
pub fn header_is_twelve_bytes()
    ensures { HeaderIsTwelveBytes }
{}

/// There is no good header in erased flash.
#[tactic(auto, using(crate::proofs::HeaderLemmas::erased_is_not_good))]
pub fn erased_is_not_good()
    ensures { ErasedIsNotGood }
{}

/// What is seen of a tile is what it reads as.
pub fn seen_is_read()
    ensures { SeenIsRead }
{}

/// What is seen of bytes fits its widths.
pub fn seen_fits()
    ensures { SeenFits }
{}

/// Whether a node may be written is computed.
#[tactic(auto, using(crate::proofs::WritingLemmas::writable_is_computed))]
pub fn writable_is_computed()
    ensures { WritableIsComputed }
{}

/// The written form of a node, up to a multiple of 4, reads as that node.
#[tactic(auto, using(crate::proofs::WritingLemmas::written_reads))]
pub fn written_reads()
    ensures { WrittenReads }
{}

/// A written node is a tile of its own, whatever follows.
pub fn written_is_tile()
    ensures { WrittenIsTile }
{}

/// The written form of a compressed node reads as that node, and is a tile of its own, whatever
/// follows; what is read of one fits its widths.
pub fn compressed_reads_back()
    ensures reads { CompressedReadsBack }
    ensures tile { CompressedIsTile }
    ensures fits { CompressedFits }
{}

/// A written node does not begin with an erased byte.
#[tactic(auto, using(crate::proofs::WritingLemmas::canonical_is_not_erased))]
pub fn written_is_not_erased()
    ensures { WrittenIsNotErased }
{}

/// The clean marker is a tile of its own, seen as that.
pub fn marker_is_tile()
    ensures { MarkerIsTile }
{}

/// Padding is a tile of its own, seen as that.
pub fn padding_is_tile()
    ensures { PaddingIsTile }
{}

/// Where a cut changes a header and is not weak, there is no good header at any of its words.
pub fn torn_header_is_none()
    ensures { TornHeaderIsNone }
{}

/// A node that a cut changed after its header, and not weakly, is seen as damaged.
pub fn torn_node_is_damaged()
    ensures { TornNodeIsDamaged }
{}

/// A node whose header is intact after a cut is a tile as the whole node is.
pub fn torn_is_tile()
    ensures { TornIsTile }
{}

/// A cut after the header keeps it.
pub fn cut_behind_keeps_header()
    ensures { CutBehindKeepsHeader }
{}

/// There is no good header at any word of a torn clean marker.
pub fn torn_marker_is_none()
    ensures { TornMarkerIsNone }
{}

// ---- worked examples, which the definitions compute

/// The written form of known nodes.
#[tactic(auto, unfolding(crate::specs::Order::bytes_in, crate::specs::Writing::header_bytes, crate::specs::Writing::entry_front, crate::specs::Writing::canonical_entry, crate::specs::Writing::object_bytes, crate::specs::Writing::time_bytes, crate::specs::Writing::range_bytes, crate::specs::Writing::inode_front, crate::specs::Writing::canonical_inode, flashbase::specs::Crc::crc_after, flashbase::specs::Crc::push_byte, flashbase::specs::Crc::push_bits, flashbase::specs::Crc::push_bit))]
pub fn known_forms()
    ensures little_marker { clean_marker Endian.Little ≡ little_marker }
    ensures big_marker { clean_marker Endian.Big ≡ big_marker }
    ensures entry_a { canonical_entry Endian.Little named_a ≡ entry_a }
    ensures entry_a_big { canonical_entry Endian.Big named_a ≡ entry_a_big }
    ensures inode_2 { canonical_inode Endian.Little new_file ≡ inode_2 }
    ensures no_length { header_bytes Endian.Little 0x2003 0 ≡ no_length }
    ensures length_13 { header_bytes Endian.Little 0x2003 13 ≡ length_13 }
{}

/// Whether known headers are good.
#[tactic(auto, unfolding(crate::specs::Order::number_in, crate::specs::Header::header_crc_of, crate::specs::Header::has_header, crate::specs::Header::is_good_front, crate::specs::Header::is_good, flashbase::specs::Bytes::pad4_of, crate::specs::Order::bytes_in, flashbase::specs::Crc::crc_after, flashbase::specs::Crc::push_byte, flashbase::specs::Crc::push_bits, flashbase::specs::Crc::push_bit))]
pub fn known_headers()
    ensures little_marker { is_good Endian.Little little_marker ≡ true }
    ensures other_order { is_good Endian.Big little_marker ≡ false }
    ensures entry_a { is_good Endian.Little entry_a ≡ true }
    ensures obsolete_a { is_good Endian.Little obsolete_a ≡ true }
    ensures no_length { is_good Endian.Little no_length ≡ false }
    ensures length_13 { is_good Endian.Little length_13 ≡ false }
    ensures longer { is_good Endian.Little (filled length_13 ++ filled length_13) ≡ true }
{}

/// What known nodes are seen as.
#[tactic(auto, unfolding(crate::specs::Order::number_in, crate::specs::Header::header_crc_of, crate::specs::Header::has_header, crate::specs::Header::is_good_front, crate::specs::Header::is_good, flashbase::specs::Bytes::pad4_of, crate::specs::Reading::seen_of, crate::specs::Reading::entry_seen, crate::specs::Reading::inode_seen, crate::specs::Reading::plain_seen, crate::specs::Reading::other_seen, crate::specs::Reading::passed_seen, crate::specs::Reading::is_entry_long, crate::specs::Reading::is_crc_right, crate::specs::Reading::is_size_right, crate::specs::Reading::is_entry_in_range, crate::specs::Reading::is_inode_long, crate::specs::Reading::is_inode_in_range, crate::specs::Reading::is_data_crc_right, crate::specs::Order::bytes_in, flashbase::specs::Crc::crc_after, flashbase::specs::Crc::push_byte, flashbase::specs::Crc::push_bits, flashbase::specs::Crc::push_bit))]
pub fn known_nodes()
    ensures little_marker { seen_of Endian.Little little_marker ≡ Seen.Marker }
    ensures big_marker { seen_of Endian.Big big_marker ≡ Seen.Marker }
    ensures entry_a { seen_of Endian.Little (filled entry_a) ≡ Seen.Entry named_a }
    ensures entry_a_big { seen_of Endian.Big (filled entry_a_big) ≡ Seen.Entry named_a }
    ensures obsolete_a { seen_of Endian.Little (filled obsolete_a) ≡ Seen.Obsolete }
    ensures inode_2 { seen_of Endian.Little inode_2 ≡ Seen.Inode new_file }
{}

/// What headers alone are seen as, by their types.
#[tactic(auto, unfolding(crate::specs::Order::bytes_in, crate::specs::Writing::header_bytes, crate::specs::Order::number_in, crate::specs::Reading::seen_of, crate::specs::Reading::entry_seen, crate::specs::Reading::inode_seen, crate::specs::Reading::plain_seen, crate::specs::Reading::other_seen, crate::specs::Reading::passed_seen, crate::specs::Reading::is_entry_long, crate::specs::Reading::is_crc_right, crate::specs::Reading::is_size_right, crate::specs::Reading::is_entry_in_range, crate::specs::Reading::is_inode_long, crate::specs::Reading::is_inode_in_range, crate::specs::Reading::is_data_crc_right, flashbase::specs::Crc::crc_after, flashbase::specs::Crc::push_byte, flashbase::specs::Crc::push_bits, flashbase::specs::Crc::push_bit))]
pub fn known_types()
    ensures attribute { seen_of Endian.Little (header_bytes Endian.Little 0xE008 12)
        ≡ Seen.Attribute }
    ensures attribute_reference { seen_of Endian.Little (header_bytes Endian.Little 0xE009 12)
        ≡ Seen.Attribute }
    ensures incompatible { seen_of Endian.Little (header_bytes Endian.Little 0xE0F7 12)
        ≡ Seen.Incompatible 0xE0F7 }
    ensures read_only { seen_of Endian.Little (header_bytes Endian.Little 0xA0F7 12)
        ≡ Seen.ReadOnly 0xA0F7 }
    ensures copied { seen_of Endian.Little (header_bytes Endian.Little 0x60F7 12)
        ≡ Seen.Skippable 0x60F7 }
    ensures deleted { seen_of Endian.Little (header_bytes Endian.Little 0x20F7 12)
        ≡ Seen.Skippable 0x20F7 }
    ensures summary { seen_of Endian.Little (header_bytes Endian.Little 0x2006 12)
        ≡ Seen.Skippable 0x2006 }
    ensures obsolete { seen_of Endian.Little (header_bytes Endian.Little 0xC0F7 12)
        ≡ Seen.Obsolete }
    ensures marker { seen_of Endian.Little (header_bytes Endian.Little 0x2003 12) ≡ Seen.Marker }
    ensures padding { seen_of Endian.Little (header_bytes Endian.Little 0x2004 12) ≡ Seen.Padding }
    ensures padding_of_16 { seen_of Endian.Little (padding_node Endian.Little 16) ≡ Seen.Padding }
    ensures entry { seen_of Endian.Little (header_bytes Endian.Little 0xE001 12)
        ≡ Seen.Damaged Damage.Length }
    ensures inode { seen_of Endian.Little (header_bytes Endian.Little 0xE002 12)
        ≡ Seen.Damaged Damage.Length }
{}

/// Data that fail their check hide the node in them.
#[tactic(auto, unfolding(crate::specs::Order::bytes_in, crate::specs::Writing::header_bytes, crate::specs::Writing::entry_front, crate::specs::Writing::canonical_entry, crate::specs::Writing::object_bytes, crate::specs::Writing::time_bytes, crate::specs::Writing::range_bytes, crate::specs::Writing::inode_front, crate::specs::Writing::canonical_inode, crate::specs::Order::number_in, crate::specs::Header::header_crc_of, crate::specs::Header::has_header, crate::specs::Header::is_good_front, crate::specs::Header::is_good, flashbase::specs::Bytes::pad4_of, crate::specs::Reading::seen_of, crate::specs::Reading::entry_seen, crate::specs::Reading::inode_seen, crate::specs::Reading::plain_seen, crate::specs::Reading::other_seen, crate::specs::Reading::passed_seen, crate::specs::Reading::is_entry_long, crate::specs::Reading::is_crc_right, crate::specs::Reading::is_size_right, crate::specs::Reading::is_entry_in_range, crate::specs::Reading::is_inode_long, crate::specs::Reading::is_inode_in_range, crate::specs::Reading::is_data_crc_right, flashbase::specs::Crc::crc_after, flashbase::specs::Crc::push_byte, flashbase::specs::Crc::push_bits, flashbase::specs::Crc::push_bit))]
pub fn known_damage()
    ensures seen { seen_of Endian.Little (filled hidden_entry) ≡ Seen.Damaged Damage.DataCrc }
    ensures good { is_good Endian.Little (filled hidden_entry) ≡ true }
    ensures bytes { length hidden_entry ≡ 109 }
{}

/// A cut that no check shows: the data have the checksum of five erased bytes.
#[tactic(auto, unfolding(crate::specs::Weak::is_weak, crate::specs::Weak::has_bounded_header, crate::specs::Order::bytes_in, crate::specs::Writing::header_bytes, crate::specs::Writing::entry_front, crate::specs::Writing::canonical_entry, crate::specs::Writing::object_bytes, crate::specs::Writing::time_bytes, crate::specs::Writing::range_bytes, crate::specs::Writing::inode_front, crate::specs::Writing::canonical_inode, crate::specs::Order::number_in, crate::specs::Header::header_crc_of, crate::specs::Header::has_header, crate::specs::Header::is_good_front, crate::specs::Header::is_good, flashbase::specs::Bytes::pad4_of, crate::specs::Reading::seen_of, crate::specs::Reading::entry_seen, crate::specs::Reading::inode_seen, crate::specs::Reading::plain_seen, crate::specs::Reading::other_seen, crate::specs::Reading::passed_seen, crate::specs::Reading::is_entry_long, crate::specs::Reading::is_crc_right, crate::specs::Reading::is_size_right, crate::specs::Reading::is_entry_in_range, crate::specs::Reading::is_inode_long, crate::specs::Reading::is_inode_in_range, crate::specs::Reading::is_data_crc_right, flashbase::specs::Crc::crc_after, flashbase::specs::Crc::push_byte, flashbase::specs::Crc::push_bits, flashbase::specs::Crc::push_bit))]
pub fn known_cuts()
    ensures before { is_weak Endian.Little (canonical_inode Endian.Little weak_write) 67 ≡ false }
    ensures at { is_weak Endian.Little (canonical_inode Endian.Little weak_write) 68 ≡ true }
    ensures torn { is_weak Endian.Little (canonical_inode Endian.Little weak_write) 69 ≡ false }
    ensures whole { is_weak Endian.Little (canonical_inode Endian.Little weak_write) 73 ≡ false }
{}
