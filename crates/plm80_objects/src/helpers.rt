//! What the commands of object files share, and the longer parts of one of them.

pub(crate) mod board_options;
pub(crate) mod byte_words;
pub(crate) mod causes;
pub(crate) mod decimal_words;
pub(crate) mod dump_words;
pub(crate) mod empty_segments;
pub(crate) mod extent_words;
pub(crate) mod image_words;
pub(crate) mod link_lines;
pub(crate) mod locate_options;
pub(crate) mod other_words;
pub(crate) mod rom_faults;
