//! The names that a host over memory holds: inputs with their bytes, and outputs that are there already.

ghost use Rattle.std.specs.Prelude.{◌≡◌, ◌<◌, ◌||◌, [], length, string_bytes, IfSome, option_map, get_or, map, not, codes};
ghost use Rattle.std.specs.List.{list_any};
ghost use Rattle.std.specs.Str.{bytes_eq};
ghost use Rattle.tests_host.specs.Memory.{bytes_named};
ghost use Rattle.tests_host.specs.Names.{name_and_bytes};

/// An input's name, and the bytes that it stands for.
#[derive(Drop)]
pub(crate) struct NamedBytes {
    pub(crate) name: String,
    pub(crate) bytes: Vec<u8>,
}

/// The index of the first input of this name.
pub(crate) fn find(inputs: &[NamedBytes], name: &str) -> Option<usize>
    ensures within { IfSome result (λ index. index < length inputs.now) }
    ensures found { option_map (λ index. (get_or (map name_and_bytes inputs.now) index
        ([], [])).1) result
        ≡ bytes_named (map name_and_bytes inputs.now) name.now }
{
    for (index, input) in inputs.iter().enumerate() {
        if input.name.as_str() == name {
            return Some(index);
        }
    }
    None
}

/// Whether an output of this name is there already.
fn is_taken(taken: &[String], name: &str) -> bool
    ensures { result ≡ list_any (λ one. bytes_eq (string_bytes one) name.now) taken.now }
{
    taken.iter().any(|one| one.as_str() == name)
}

/// Whether an output of this name may be made: standard output, a new one, or one to write over.
#[tactic(auto, using(crate::proofs::NameLemmas::any_map))]
pub(crate) fn may_be_made(taken: &[String], name: &str, overwrite: bool) -> bool
    ensures { result ≡ (overwrite || bytes_eq name.now (codes "-")
        || not (list_any (λ one. bytes_eq one name.now) (map string_bytes taken.now))) }
{
    overwrite || name == "-" || !is_taken(taken, name)
}
