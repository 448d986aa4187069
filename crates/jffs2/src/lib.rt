//! Images of JFFS2, the Journalling Flash File System 2: read, checked, built and extended.
//!
//! This crate is the front door. It has no code of its own: it names, in one place, the calls and
//! types of the crates below it that a program needs. `docs/PROOFS.md` says what is proved of each
//! call, `docs/FORMAT.md` describes the medium byte by byte.
//!
//! | I want to | Call |
//! |---|---|
//! | read a file or a pipe into memory | [`load`] on a [`Source`], as [`FromReader`] |
//! | see the file system of an image | [`mount`], which gives a [`Mounted`] |
//! | follow a path | [`Mounted::find`]: the inode number that it leads to |
//! | see kind, mode, owner, size and times of it | [`Mounted::object`] |
//! | read its bytes | [`Mounted::read_at`], or [`Mounted::put_bytes`] into a [`Sink`] |
//! | list a directory | [`Mounted::entries`]; [`Mounted::names`] has the names of all directories |
//! | have the image of a dump with spare bytes | [`drop_spare`], by a [`PageLayout`] |
//! | find the layout of such a dump | [`spare_of`], of the usual [`LAYOUTS`] |
//! | know which nodes clash, where a mount says so | [`clash_below`]: the other one |
//! | know what is damaged | [`Mounted::findings`], [`Mounted::dangling`], [`Mounted::shape`] |
//! | print what the damage of an image costs | [`put_damage`], of a [`Mounted`] |
//! | print what `ls` and `cat` print | [`tree_lines`], [`put_subtree`], [`content`] |
//! | print what `check` prints | [`scan_lines`], then [`verdict_lines`] |
//! | see each node, with its address | [`scan`], or [`Sightings`] one by one |
//! | see an image that is larger than memory | [`scan_stream`], [`stream_lines`] |
//! | write to an image | [`Session::resume`], then [`Session::run`] with a list of [`Op`] |
//! | put the old image and new operations out as one | [`emit`], which gives an [`Emitted`] |
//! | judge once where writing goes on | [`Start::of`], for [`Session::begin`] and [`emit_from`] |
//! | see the file system of an image with compressed data | [`mount_through`], as it is |
//! | write to such an image, compressed too | [`PackingSession::resume`], then as a [`Session`] |
//! | write to it without compressing | the same, with [`NodeForms::Own`] |
//! | write to its blank blocks, wherever they lie | [`Row::of`], [`PackingSession::resume_in_row`] |
//! | put an image with what was written there | [`put_with_row`] |
//! | know where begun blocks may be written on | [`rests_of`]; [`openings_of`] has blank ones too |
//! | write there | [`OpeningSession::resume`], then as a [`Session`] |
//! | put an image with what was written there | [`put_with_stretches`], by each [`Stretch`] |
//! | write an image of the nodes alone that matter | [`compact_into`]; [`plan_of`] says how long |
//! | write such an image of one with compressed data | [`compact_through`], [`plan_through`] |
//! | know where such data lie, before it is mounted | [`view_image`], then [`mount_view`] |
//! | have such an image with plain data in memory | [`decompressed`], then [`mount`] |
//! | write such an image with plain data | [`decompress`] |
//! | write an image with compressed data | [`compress`], of one that is not |
//! | read operations from a text | [`listing`], then [`operations`] |
//! | know whether a power cut inside a node would be seen | [`weak_cut`] |
//!
//! The byte order of an image is a type parameter, [`LittleEndian`] or [`BigEndian`]; the size of
//! its erase blocks is the [`Geometry`]. Both have to be known: an image does not tell them.
//!
//! What allocates takes the allocator and may answer that memory is out; no call panics. An image
//! is at most [`GREATEST_IMAGE`] bytes long, and is lent to [`mount`], not copied.
//!
//! The programs `example_read` and `example_write` use these calls.
#![tactic(auto)]

pub use byteorder::BigEndian;
pub use byteorder::LittleEndian;
pub use flashbase::DeviceFault;
pub use flashbase::FromReader;
pub use flashbase::FromWriter;
pub use flashbase::LoadFault;
pub use flashbase::PutFault;
pub use flashbase::Sink;
pub use flashbase::Source;
pub use flashbase::load;
pub use flashbase::put_all;
pub use jbuild::EmitFault;
pub use jbuild::Emitted;
pub use jbuild::HostFiles;
pub use jbuild::emit;
pub use jbuild::emit_from;
pub use jbuild::operations;
pub use jclash::clash_below;
pub use jcollect::CollectFault;
pub use jcollect::Collected;
pub use jcollect::Plan;
pub use jcollect::ThroughFault;
pub use jcollect::compact_into;
pub use jcollect::compact_through;
pub use jcollect::plan_of;
pub use jcollect::plan_through;
pub use jconvert::Apart;
pub use jconvert::ConvertFault;
pub use jconvert::Converted;
pub use jconvert::LeftOut;
pub use jconvert::compress;
pub use jconvert::decompress;
pub use jconvert::decompress_apart;
pub use jconvert::decompressed;
pub use jdamage::DamageFault;
pub use jdamage::Totals;
pub use jdamage::put_damage;
pub use jlisting::Action;
pub use jlisting::BadLine;
pub use jlisting::Line;
pub use jlisting::ListingFault;
pub use jlisting::Rule;
pub use jlisting::WordRule;
pub use jlisting::listing;
pub use jlog::Applied;
pub use jlog::Flash;
pub use jlog::Place;
pub use jlog::RunReport;
pub use jlog::Session;
pub use jlog::SessionFault;
pub use jlog::Start;
pub use jmount::FindFault;
pub use jmount::Kind;
pub use jmount::MountFault;
pub use jmount::Mounted;
pub use jmount::Object;
pub use jmount::mount;
pub use jnode::Damage;
pub use jnode::Dirent;
pub use jnode::Endian;
pub use jnode::Fill;
pub use jnode::InodeNode;
pub use jnode::NodeRef;
pub use jnode::Order;
pub use jnode::Seen;
pub use jnode::weak_cut;
pub use jopenings::Stretch;
pub use jopenings::StretchesOnFlash;
pub use jopenings::len_with_stretches;
pub use jopenings::put_with_stretches;
pub use jpacked::NodeForms;
pub use jpacked::PackingSession;
pub use jreport::ProgramFault;
pub use jreport::content;
pub use jreport::put_subtree;
pub use jreport::scan_lines;
pub use jreport::stream_lines;
pub use jreport::tree_lines;
pub use jreport::verdict_lines;
pub use jrests::Opening;
pub use jrests::openings_of;
pub use jrests::rests_of;
pub use jrow::Row;
pub use jrow::RowOnFlash;
pub use jrow::put_with_row;
pub use jrow::written_len;
pub use jscan::Counts;
pub use jscan::Extent;
pub use jscan::ExtentKind;
pub use jscan::Extents;
pub use jscan::Finding;
pub use jscan::FindingKind;
pub use jscan::GREATEST_IMAGE;
pub use jscan::Geometry;
pub use jscan::Page;
pub use jscan::Scan;
pub use jscan::ScanFault;
pub use jscan::Sightings;
pub use jscan::StreamFault;
pub use jscan::scan;
pub use jscan::scan_stream;
pub use jspare::LAYOUTS;
pub use jspare::PageLayout;
pub use jspare::drop_spare;
pub use jspare::spare_of;
pub use jsteps::Attributes;
pub use jsteps::Op;
pub use jsteps::OpFault;
pub use jsteps::Text;
pub use jthrough::View;
pub use jthrough::ViewFault;
pub use jthrough::mount_through;
pub use jthrough::mount_view;
pub use jthrough::nodes_through;
pub use jthrough::view_image;
pub use jupdate::OpeningSession;
