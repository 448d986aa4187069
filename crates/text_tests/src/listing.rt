//! Tests of `jlisting`: each form of a line, the lines that are none with their
//! numbers and the rules that they break, settings,
//! escapes, the limits of numbers, and refused growth. Expected values come from the format of a
//! listing and not from the program's output.

mod growth;
mod readable;
mod rules;
mod shown;
mod wrong;
