// The part of luck's rule format_string that works on a literal's text.
pub mod format_string;
