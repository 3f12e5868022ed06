/// A topic, its title, and the text on it, which begins with the title. It is a tuple, since definitions name the constants that are
/// made of it.
pub(crate) type Row = (&'static str, &'static str, &'static str);
