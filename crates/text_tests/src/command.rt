//! Tests of `jcommand`: what command lines ask for, what is answered to the others, and the exit
//! statuses.

mod command_lines;
mod decompressing;
mod finding;
mod folders;
mod growth;
mod inodes;
mod outputs;
mod packing;
mod regions;
mod sizes;
mod updating;
mod verifying;
