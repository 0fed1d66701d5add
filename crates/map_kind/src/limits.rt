/// The most darts of a path along which a face is put into a volume. It is this project's limit for a line of a script.
pub const PATH_MAX: usize = 4096;
