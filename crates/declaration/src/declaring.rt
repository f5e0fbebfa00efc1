// A declaration, `name:iK`.
ghost use Rattle.std.specs.Prelude.{◌≡◌, ◌≤◌, length, drop};
ghost use Rattle.edition.specs.declared.Edition.{Edition as TheEdition};
ghost use Rattle.edition.specs.Edition.{max_variables};
ghost use Rattle.store.specs.Hash.{hash_of};
ghost use Rattle.store.specs.Names.{Searchable};
ghost use Rattle.store.specs.Tables.{variables_in};
ghost use Rattle.declaration.specs.Internal.{new_name, declaration_of};

use edition::Edition;
use refusal::Fault;
use spelling::is_reserved;
use store::names::find;
use text::TypeError;

// The width of a name from `at` to the end of the text, with that hash, if it is new: not reserved, not declared, and there is room for it.
fn new_name(
    file: &[u8],
    variables: &[u64; Edition::VARIABLES],
    n: usize,
    text: &[u8],
    at: usize,
    hash: u32,
    width: u64,
) -> Result<u64, Fault>
    requires { (at ≤ length text.now) × (n ≤ max_variables) × Searchable file.now variables.now n × (hash ≡ hash_of (drop at text.now)) }
    ensures { (e : TheEdition) → result ≡ new_name e (variables_in file.now variables.now n) (drop at text.now) width }
{
    if Edition::NAME_BYTES < text.len() - at {
        return Err(Fault::OverLimit);
    }
    if Edition::VARIABLES <= n {
        return Err(Fault::OverLimit);
    }
    if is_reserved(text, at) {
        return Err(Fault::NameTaken);
    }
    match find(file, variables, n, text, at, hash) {
        Some(_) => Err(Fault::NameTaken),
        None => Ok(width),
    }
}

// The width in the declaration of a name, from `at` to the end of the text, with that hash, and of the type behind it.
pub(crate) fn declare(
    file: &[u8],
    variables: &[u64; Edition::VARIABLES],
    n: usize,
    text: &[u8],
    at: usize,
    hash: u32,
    width: Result<u64, TypeError>,
) -> Result<u64, Fault>
    requires { (at ≤ length text.now) × (n ≤ max_variables) × Searchable file.now variables.now n × (hash ≡ hash_of (drop at text.now)) }
    ensures { (e : TheEdition) → result ≡ declaration_of width (new_name e (variables_in file.now variables.now n) (drop at text.now)) }
{
    match width {
        Err(TypeError::NoType) => Err(Fault::Misspelt),
        Err(TypeError::NoWidth) => Err(Fault::NotAWidth),
        Ok(k) => new_name(file, variables, n, text, at, hash, k),
    }
}
