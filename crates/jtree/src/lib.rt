//! The laws of trees: the text of a tree makes the tree.
//!
//! It is built on `jfolder` (the text of a tree, and the actions that it is read as), `jsteps`
//! (operations, their refusals and their steps), `jlog` (what is written for them) and `jbuild`
//! (the operations of a listing's lines). Its promises: on the empty file system the operations of
//! a tree are all accepted, and make that tree and nothing else; and the image that is written for
//! a tree's text mounts as a file system that holds the tree and nothing else.
//!
//! `specs/Making.antt` has the operations of a tree, `specs/Holding.antt` what a file system that
//! holds a tree is, `specs/Laws.antt` the law, and `specs/Image.antt` that of the image.
//! `specs/Written.antt` says the same of what goes out for a tree's text. `specs/Updates.antt` has
//! the law of updates: a stop at any byte leaves whole files. `laws` has them as contracts, and
//! `examples` a small tree.
#![tactic(auto)]

pub mod examples;
pub mod laws;
