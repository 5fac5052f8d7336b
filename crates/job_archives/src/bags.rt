//! The bag of a job's archive (BagIt 1.0, RFC 8493).

ghost use Rattle.std.specs.Prelude.{◌≡◌, ◌<◌, ◌==◌, ◌++◌, drop, length, position, IfOk, IfSome, OnOk};
ghost use Rattle.job_archives.specs.{
  Archives.{files_as},
  Bags.{agent_line, are_tags, bag_files, bag_of, declaration, is_agent_line, is_info, is_line, is_same, job_name, manifest_line, manifest_of, octets_in, oxum_of, tag_files, tag_line, told_lines},
};

use crate::archives::{Archive, BagFile, file, files_of};
use job_checks::JobRun;
use std::alloc::{AllocError, Global};
use std::marker::Model;
use texts::{push_decimal, push_digest};

/// The files of a bag, by their bytes; `bagit.txt` is the same in each.
#[derive(Drop)]
pub struct Bag {
    /// The files in `data/`.
    payload: Archive,
    /// `bag-info.txt` up to its last line, that of the program that wrote the bag.
    told: Vec<u8>,
    /// `bag-info.txt`.
    info: Vec<u8>,
    /// `manifest-sha256.txt`: the digests of the payload.
    manifest: Vec<u8>,
    /// `tagmanifest-sha256.txt`: the digests of the other tag files.
    tags: Vec<u8>,
}

impl Model for Bag {
    ghost use Rattle.job_archives.specs.Bags.{Bag};

    ghost Value = { Bag };

    ghost view = { λ bag. record {
      payload = bag.payload;
      told = bag.told.items;
      info = bag.info.items;
      manifest = bag.manifest.items;
      tags = bag.tags.items;
    } };
}

/// `bagit.txt`.
#[tactic(auto, unfolding(crate::specs::Bags::declaration))]
fn declaration() -> &'static [u8]
    ensures { result.now ≡ declaration }
{
    b"BagIt-Version: 1.0\nTag-File-Character-Encoding: UTF-8\n"
}

/// Adds the line of a file to a manifest: the digest of its bytes, and its path.
fn push_digested(alloc: Global, out: &mut Vec<u8>, file: BagFile<'_>) -> Result<(), AllocError>
    ensures { OnOk result (out.new.items
        ≡ out.old.items ++ manifest_line file.entry.path.now file.entry.bytes.now) }
{
    push_digest(alloc, out, file.bytes)?;
    out.extend_from_slice(b"  ")?;
    out.extend_from_slice(file.path.as_bytes())?;
    out.extend_from_slice(b"\n")
}

/// The manifest of files.
#[tactic(auto, using(crate::proofs::BagLemmas::same_manifest))]
fn manifest_of(alloc: Global, files: &[BagFile<'_>]) -> Result<Vec<u8>, AllocError>
    ensures { IfOk result (λ text. text.items ≡ manifest_of (files_as files.now)) }
{
    let mut out = Vec::new(alloc);
    for file in files {
        push_digested(alloc, &mut out, *file)?;
    }
    Ok(out)
}

/// How many bytes files have together; none if they are more than a memory has.
#[tactic(auto, using(crate::proofs::BagLemmas::same_octets))]
fn octets_in(files: &[BagFile<'_>]) -> Option<usize>
    ensures { IfSome result (λ octets. octets ≡ octets_in (files_as files.now)) }
{
    let mut octets: usize = 0;
    for file in files {
        octets = octets.checked_add(file.bytes.len())?;
    }
    Some(octets)
}

/// Adds a line of `bag-info.txt`.
#[tactic(auto, unfolding(crate::specs::Bags::tag_line))]
fn push_tag(out: &mut Vec<u8>, label: &str, value: &[u8]) -> Result<(), AllocError>
    ensures { OnOk result (out.new.items ≡ out.old.items ++ tag_line label.now value.now) }
{
    out.extend_from_slice(label.as_bytes())?;
    out.extend_from_slice(b": ")?;
    out.extend_from_slice(value)?;
    out.extend_from_slice(b"\n")
}

/// The name of a job: its customer and its number.
pub(crate) fn name_of(alloc: Global, run: &JobRun) -> Result<Vec<u8>, AllocError>
    ensures { IfOk result (λ text. text.items ≡ job_name run.now) }
{
    let mut out = Vec::new(alloc);
    out.extend_from_slice(run.customer().as_bytes())?;
    out.extend_from_slice(b" ")?;
    push_decimal(&mut out, run.number() as usize)?;
    Ok(out)
}

/// How many bytes and files a payload has.
fn oxum_of(alloc: Global, payload: &[BagFile<'_>]) -> Result<Vec<u8>, AllocError>
    ensures { IfOk result (λ text. text.items ≡ oxum_of (files_as payload.now)) }
{
    let octets = octets_in(payload).ok_or(AllocError)?;
    let mut out = Vec::new(alloc);
    push_decimal(&mut out, octets)?;
    out.extend_from_slice(b".")?;
    push_decimal(&mut out, payload.len())?;
    Ok(out)
}

/// The lines of `bag-info.txt` that follow from the job.
#[tactic(auto, unfolding(crate::specs::Bags::told_lines))]
fn told_lines(alloc: Global, run: &JobRun, payload: &[BagFile<'_>]) -> Result<Vec<u8>, AllocError>
    ensures { IfOk result (λ text. text.items ≡ told_lines run.now (files_as payload.now)) }
{
    let name = name_of(alloc, run)?;
    let oxum = oxum_of(alloc, payload)?;
    let mut out = Vec::new(alloc);
    push_tag(&mut out, "External-Identifier", &name)?;
    push_tag(&mut out, "Payload-Oxum", &oxum)?;
    Ok(out)
}

/// `bag-info.txt` with these lines before the one of the program that writes it.
fn info_of(alloc: Global, told: &[u8], agent: &str) -> Result<Vec<u8>, AllocError>
    ensures { IfOk result (λ text. text.items ≡ told.now ++ agent_line agent.now) }
{
    let mut out = Vec::new(alloc);
    out.extend_from_slice(told)?;
    push_tag(&mut out, "Bag-Software-Agent", agent.as_bytes())?;
    Ok(out)
}

/// The tag files but the tag manifest.
fn tag_files<'a>(info: &'a [u8], manifest: &'a [u8]) -> [BagFile<'a>; 3]
    ensures { files_as result ≡ tag_files info.now manifest.now }
{
    [
        file("bag-info.txt", info),
        file("bagit.txt", declaration()),
        file("manifest-sha256.txt", manifest),
    ]
}

/// Returns the bag of a job's archive, written by this program: its name and its version. Fails
/// only if there is no memory.
pub fn bag_of(alloc: Global, agent: &str, run: &JobRun) -> Result<Bag, AllocError>
    ensures { IfOk result (λ bag. bag ≡ bag_of agent.now run.now) }
{
    let archive = files_of(alloc, run)?;
    let payload = archive.payload();
    let told = told_lines(alloc, run, &payload)?;
    let manifest = manifest_of(alloc, &payload)?;
    let info = info_of(alloc, &told, agent)?;
    let tags = manifest_of(alloc, &tag_files(&info, &manifest))?;
    Ok(Bag {
        payload: archive,
        told,
        info,
        manifest,
        tags,
    })
}

/// Where a text has its first line feed.
fn line_end(text: &[u8]) -> Option<usize>
    ensures place { result ≡ position (λ byte. byte == 10) text.now }
    ensures within { IfSome result (λ place. place < length text.now) }
{
    text.iter().position(|byte| *byte == b'\n')
}

/// Whether bytes are one line.
fn is_line(text: &[u8]) -> bool
    ensures { result ≡ is_line text.now }
{
    match line_end(text) {
        Some(place) => place + 1 == text.len(),
        None => false,
    }
}

/// Whether a text is the line of a program that wrote a bag.
fn is_agent_line(text: &[u8]) -> bool
    ensures { result ≡ is_agent_line text.now }
{
    text.starts_with(b"Bag-Software-Agent: ") && is_line(&text[20..])
}

/// Whether a text is `bag-info.txt` with these lines before the one of the program.
fn is_info(told: &[u8], text: &[u8]) -> bool
    ensures { result ≡ is_info told.now text.now }
{
    text.starts_with(told) && is_agent_line(&text[told.len()..])
}

/// What is behind the first digest in a manifest.
fn behind_digest(text: &[u8]) -> &[u8]
    ensures { result.now ≡ drop 64 text.now }
{
    if text.len() < 64 {
        return &[];
    }
    let (_digest, behind) = text.split_at(64);
    behind
}

/// Whether a text is this tag manifest, whatever the digest of `bag-info.txt` is.
fn are_tags(tags: &[u8], text: &[u8]) -> bool
    ensures { result ≡ are_tags tags.now text.now }
{
    text.len() == tags.len() && behind_digest(text) == behind_digest(tags)
}

impl Bag {
    /// The files, in the order of their names.
    pub fn files(&self) -> [BagFile<'_>; 10]
        ensures { files_as result ≡ bag_files self.now }
    {
        let [punched, cards, deck, lines, loaded, facts] = self.payload.payload();
        [
            file("bag-info.txt", &self.info),
            file("bagit.txt", declaration()),
            punched,
            cards,
            deck,
            lines,
            loaded,
            facts,
            file("manifest-sha256.txt", &self.manifest),
            file("tagmanifest-sha256.txt", &self.tags),
        ]
    }

    /// Whether the bytes that are there are those of a file of this bag. Which version of the
    /// program wrote them does not count.
    #[tactic(auto, unfolding(crate::specs::Bags::is_same))]
    pub fn is_same(&self, file: BagFile<'_>, text: &[u8]) -> bool
        ensures { result ≡ is_same self.now (file.entry.path.now, file.entry.bytes.now) text.now }
    {
        match file.path {
            "bag-info.txt" => is_info(&self.told, text),
            "tagmanifest-sha256.txt" => are_tags(&self.tags, text),
            _ => text == file.bytes,
        }
    }
}
