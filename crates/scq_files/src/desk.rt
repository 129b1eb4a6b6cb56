//! A worker with its files.
use crate::own_file::OwnFile;

/// A worker with its files, from the last to the first: all that one thread has.
pub struct Desk<W, S> {
    pub worker: W,
    pub files: Vec<OwnFile<S>>,
}

impl<W, S> Desk<W, S> {
    ghost use Rattle.std.specs.Prelude.{◌≡◌, ◌<◌, ◌+◌, ◌++◌, ◌∷◌, [], vec_len, vec_capacity};
    ghost use Rattle.std.specs.Prelude.{IfSome, IfNone};

    /// Lays a file on the desk.
    pub fn lay(&mut self, file: OwnFile<S>)
        requires { vec_len self.old.files < vec_capacity self.old.files }
        ensures files { self.new.files.items ≡ self.old.files.items ++ file ∷ [] }
        ensures len { vec_len self.new.files ≡ vec_len self.old.files + 1 }
        ensures capacity { vec_capacity self.new.files ≡ vec_capacity self.old.files }
        ensures same { self.new.worker ≡ self.old.worker }
    {
        self.files.push_reserved(file);
    }

    /// Takes the last file off the desk.
    pub fn lift(&mut self) -> Option<OwnFile<S>>
        ensures some { IfSome result (λ file.
            self.old.files.items ≡ self.new.files.items ++ file ∷ []) }
        ensures none { IfNone result (self.old.files.items ≡ []) }
        ensures same { self.new.worker ≡ self.old.worker }
    {
        self.files.pop()
    }
}
