//! A shelf of named texts.
ghost use Rattle.std.specs.Prelude.{◌≡◌, ◌≢◌, ◌+◌, ◌<◌, [], ◌∷◌, ◌++◌, take, vec_len, vec_capacity, is_some, IfSome, IfNone};
ghost use Rattle.std.specs.String.{string_bytes};
ghost use Rattle.sky_io.specs.Shelves.{has_name, named_text, names_of, pairs_of, ShelfState, Fetched};

/// The result of a fetch.
#[derive(Clone, Copy, Debug, PartialEq, Eq)]
pub enum Fetch {
    /// The text was given.
    Done,
    /// The text is not available, and the count of failures of its name has risen.
    Failed,
    /// Memory ran out, and no failure is counted.
    Memory,
}

/// Texts under names, any of which may be unavailable.
pub trait Shelf {
    /// The texts, if they are observable, and the names whose fetch has failed.
    ghost state: { Self → ShelfState };

    /// Gives the first `limit + 1` bytes of the named text, or all of a shorter one. So the caller can recognise a text
    /// of more than `limit` bytes. Allocates memory.
    fn fetch(&mut self, name: &str, limit: usize, into: &mut Vec<u8>) -> Fetch
        requires { into.old.items ≡ [] }
        ensures { Fetched (state self.old) (state self.new) name.now limit into.new.items result };
}

// The text of the first pair with the name.
pub(crate) fn find_text<'a>(texts: &'a [(String, Vec<u8>)], name: &str) -> Option<&'a [u8]>
    ensures found { is_some result ≡ has_name name.now (pairs_of texts.now) }
    ensures text { IfSome result (λ text. text.now ≡ named_text name.now (pairs_of texts.now)) }
    ensures none { IfNone result (named_text name.now (pairs_of texts.now) ≡ []) }
{
    for (other, text) in texts {
        if other.as_str() == name {
            return Some(text.as_slice());
        }
    }
    None
}

// Records a name whose fetch has failed. There is room for it.
pub(crate) fn note(names: &mut Vec<String>, name: String) -> Fetch
    requires { vec_len names.old < vec_capacity names.old }
    ensures noted { names_of names.new.items ≡ names_of names.old.items ++ string_bytes name ∷ [] }
    ensures answer { result ≡ Fetch.Failed }
{
    names.push_reserved(name);
    Fetch::Failed
}

// Gives the first `limit + 1` bytes of a text, or all of a shorter one.
pub(crate) fn give(text: &[u8], limit: usize, into: &mut Vec<u8>) -> Fetch
    requires { into.old.items ≡ [] }
    ensures done { result ≡ Fetch.Done → into.new.items ≡ take (limit + 1) text.now }
    ensures nothing { result ≢ Fetch.Done → (result ≡ Fetch.Memory) × (into.new.items ≡ []) }
{
    let part = if limit < text.len() {
        &text[..limit + 1]
    } else {
        text
    };
    match into.extend_from_slice(part) {
        Ok(()) => Fetch::Done,
        Err(_) => Fetch::Memory,
    }
}
