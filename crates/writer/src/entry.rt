// An entry of a cross-reference section, which stands with the tables that are made of it.
pub use entries::entry::Entry;
