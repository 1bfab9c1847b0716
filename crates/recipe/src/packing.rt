//! Packing.
ghost use Rattle.std.specs.Prelude.{◌≡◌, ◌++◌, ◌∷◌, [], IfOk, IfErr, OnOk, Ok, Err, length, codes, decimal, map, string_bytes, ℕ};
ghost use Rattle.std.specs.List.{flat_map};
ghost use Rattle.scenario.specs.declared.why.Why.{Why};
ghost use Rattle.recipe.specs.Lines.{lines_in};
ghost use Rattle.recipe.specs.Packing.{attach_text, attached, attaches_at, behind, is_vehicle_next, line_text, package_alone, packed, printed, script_of, text_of, vehicle_alone};
ghost use Rattle.vehicle_package.specs.Spelling.{vehicle_text};

use crate::fault::PackError;
use crate::made::Made;
use crate::parts::NamedPackage;
use crate::recipe::{first_line, first_word, read_recipe};
use crate::words::is_step;
use package_reader::seal_package;
use scenario::Why;
use std::alloc::{AllocError, Global};
use std::marker::Model;
use ucm_base::ClusterName;
use vehicle_package::{Step, seal_vehicle};

/// What is packed of a recipe.
#[derive(Clone, Copy, Debug, PartialEq, Eq)]
pub enum Kind {
    /// The one package that it makes.
    Package,
    /// The vehicle that its steps make.
    Vehicle,
    /// The script, with the packages and the vehicle attached.
    Script,
}

/// What is attached: the bytes of a package or of the vehicle, under its name.
#[derive(Drop)]
struct Attachment {
    name: ClusterName,
    bytes: Vec<u8>,
}

impl Model for Attachment {
    ghost use Rattle.recipe.specs.Packing.{NamedBytes};

    ghost Value = { NamedBytes };

    ghost view = { λ a. record { name = a.name; bytes = a.bytes.items } };
}

impl Attachment {
    /// The bytes of a package.
    fn of(alloc: Global, named: &NamedPackage) -> Result<Attachment, AllocError>
        ensures { IfOk result (λ a. a ≡ printed named.now) }
    {
        let bytes = seal_package(alloc, named.parts.as_slice())?;
        Ok(Attachment {
            name: named.name,
            bytes,
        })
    }

    /// The vehicle's bytes, under the name that no package has.
    fn vehicle(bytes: Vec<u8>) -> Attachment
        ensures { result ≡ record { name = codes "vehicle"; bytes = bytes.items } }
    {
        let Ok(name) = ClusterName::of(b"vehicle") else {
            unreachable!()
        };
        Attachment { name, bytes }
    }

    /// The bytes.
    fn as_slice(&self) -> &[u8]
        ensures { result.now ≡ self.now.bytes }
    {
        self.bytes.as_slice()
    }

    /// The line that attaches it, without its line feed.
    fn line(&self, alloc: Global) -> Result<String, AllocError>
        ensures { IfOk result (λ s. string_bytes s ≡ attach_text self.now) }
    {
        attach_line(alloc, self.name, self.bytes.len())
    }
}

/// The line `attach <name> <length>`.
fn attach_line(alloc: Global, name: ClusterName, len: usize) -> Result<String, AllocError>
    ensures { IfOk result (λ s. string_bytes s ≡ codes "attach " ++ name ++ 32 ∷ decimal len) }
{
    format!(in alloc; "attach {name} {len}")
}

/// The bytes of all packages.
fn packages_of(alloc: Global, packages: &[NamedPackage]) -> Result<Vec<Attachment>, AllocError>
    ensures { IfOk result (λ all. all.items ≡ map printed packages.now) }
{
    let mut all = Vec::new(alloc);
    for named in packages {
        all.push(Attachment::of(alloc, named)?)?;
    }
    Ok(all)
}

/// The bytes of the vehicle that carries these packages.
fn vehicle_bytes(
    alloc: Global,
    steps: &[Step],
    packages: &[Attachment],
) -> Result<Vec<u8>, AllocError>
    ensures { IfOk result
        (λ b. b.items ≡ vehicle_text steps.now (map (λ a. a.bytes) packages.now)) }
{
    let mut texts = Vec::new(alloc);
    'packages: for package in packages {
        texts.push(package.as_slice())?;
    }
    seal_vehicle(alloc, steps, texts.as_slice())
}

/// What is judged behind all lines: a line that the command needs isn't there, or there are more.
fn missing() -> PackError
    ensures { result ≡ PackError.Refused 0 Why.Missing }
{
    PackError::Refused {
        line: 0,
        why: Why::Missing,
    }
}

/// The bytes of the one package, where there is no step.
fn package_alone(
    alloc: Global,
    packages: &[NamedPackage],
    steps: &[Step],
) -> Result<Vec<u8>, PackError>
    ensures package { IfOk result (λ b. package_alone packages.now steps.now ≡ Ok b.items) }
    ensures refused { IfErr result (λ e. (line : ℕ) (why : Why) → e ≡ PackError.Refused line why
        → package_alone packages.now steps.now ≡ Err (record { line = line; why = why })) }
{
    match (packages, steps) {
        ([named], []) => Ok(seal_package(alloc, named.parts.as_slice())?),
        _ => Err(missing()),
    }
}

/// The bytes of the vehicle, where there is a step.
fn vehicle_alone(alloc: Global, made: &Made) -> Result<Vec<u8>, PackError>
    ensures vehicle { IfOk result (λ b. vehicle_alone made.now ≡ Ok b.items) }
    ensures refused { IfErr result (λ e. (line : ℕ) (why : Why) → e ≡ PackError.Refused line why
        → vehicle_alone made.now ≡ Err (record { line = line; why = why })) }
{
    if made.is_without_step() {
        return Err(missing());
    }
    let packages = packages_of(alloc, made.packages())?;
    Ok(vehicle_bytes(alloc, made.steps(), packages.as_slice())?)
}

/// What is attached to the script, in order of the lines.
fn attached(alloc: Global, made: &Made) -> Result<Vec<Attachment>, AllocError>
    ensures { IfOk result (λ all. all.items ≡ attached made.now) }
{
    let mut all = packages_of(alloc, made.packages())?;
    if made.is_without_step() {
        return Ok(all);
    }
    let bytes = vehicle_bytes(alloc, made.steps(), all.as_slice())?;
    all.insert(made.above(), Attachment::vehicle(bytes))?;
    Ok(all)
}

/// Whether the vehicle is attached next.
fn is_vehicle_next(made: &[Attachment]) -> bool
    ensures { result ≡ is_vehicle_next made.now }
{
    match made {
        [attachment, ..] => attachment.name.as_bytes() == b"vehicle".as_slice(),
        [] => false,
    }
}

/// Whether what is attached next stands at a line of this first word.
fn attaches(made: &[Attachment], word: &[u8]) -> bool
    ensures { result ≡ attaches_at made.now word.now }
{
    word == b"package".as_slice() || (is_step(word) && is_vehicle_next(made))
}

/// Adds what a line becomes, and a line feed. What is answered is attached below it.
fn add_line<'a>(
    alloc: Global,
    text: &mut Vec<u8>,
    made: &'a [Attachment],
    line: &[u8],
) -> Result<&'a [Attachment], AllocError>
    ensures text { OnOk result
        (text.new.items ≡ text.old.items ++ line_text made.now line.now ++ 10 ∷ []) }
    ensures behind { IfOk result (λ left. left.now ≡ behind made.now line.now) }
{
    let word = first_word(line);
    let mut left = made;
    if attaches(made, word) {
        if let [attachment, more @ ..] = made {
            text.extend_from_slice(attachment.line(alloc)?.as_bytes())?;
            left = more;
        }
    } else if word == b"with".as_slice() || is_step(word) {
        text.push(b'#')?;
    } else {
        text.extend_from_slice(line)?;
    }
    text.push(b'\n')?;
    Ok(left)
}

/// The lines of the script.
fn lines(alloc: Global, input: &[u8], made: &[Attachment]) -> Result<Vec<u8>, AllocError>
    ensures { IfOk result (λ text. text.items ≡ text_of made.now (lines_in input.now)) }
{
    let mut text = Vec::new(alloc);
    let mut left = made;
    let mut rest = input;
    'lines: while !rest.is_empty() {
        let (line, behind) = first_line(rest);
        left = add_line(alloc, &mut text, left, line)?;
        rest = behind;
    }
    Ok(text)
}

/// Adds the bytes of the packages.
fn add_bytes(bytes: &mut Vec<u8>, made: &[Attachment]) -> Result<(), AllocError>
    ensures { OnOk result (bytes.new.items ≡ bytes.old.items ++ flat_map (λ a. a.bytes) made.now) }
{
    'made: for attachment in made {
        bytes.extend_from_slice(attachment.as_slice())?;
    }
    Ok(())
}

/// The script, with the packages behind its line `end`.
fn script(alloc: Global, input: &[u8], made: &[Attachment]) -> Result<Vec<u8>, AllocError>
    ensures { IfOk result (λ b. b.items ≡ script_of input.now made.now) }
{
    if made.is_empty() {
        return Vec::from_slice(alloc, input);
    }
    let mut text = lines(alloc, input, made)?;
    text.extend_from_slice(b"end\n")?;
    add_bytes(&mut text, made)?;
    Ok(text)
}

/// Packs a recipe. Its lines `package <name> <action> <cluster> <version> <block> <need>*` make software packages, its
/// lines `with`, of the same words, add parts to packages above, its lines `step <node> <name>` bring a package above
/// to a node, and each other line passes as it is.
///
/// A payload is hashed once (SHA-256, FIPS 180-4), all bytes of a package before its digest once, and all bytes of the
/// vehicle before its digest once. The time is linear in the recipe and what it makes.
pub fn pack(alloc: Global, input: &[u8], kind: Kind) -> Result<Vec<u8>, PackError>
    ensures packed { IfOk result (λ b. packed kind input.now ≡ Ok b.items) }
    ensures refused { IfErr result (λ e. (line : ℕ) (why : Why) → e ≡ PackError.Refused line why
        → packed kind input.now ≡ Err (record { line = line; why = why })) }
{
    let made = read_recipe(alloc, input)?;
    match kind {
        Kind::Package => package_alone(alloc, made.packages(), made.steps()),
        Kind::Vehicle => vehicle_alone(alloc, &made),
        Kind::Script => {
            let all = attached(alloc, &made)?;
            Ok(script(alloc, input, all.as_slice())?)
        }
    }
}
