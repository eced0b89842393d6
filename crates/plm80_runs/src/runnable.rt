//! Programs that run among the devices of a board: those that the verifier accepts, and those that it refuses and a table follows.

ghost use Rattle.std.specs.Prelude.{◌≡◌, ◌<◌, All, IfOk, IfSome};
ghost use Rattle.image80.specs.Image.{memory_of};
ghost use Rattle.verify80_follow.specs.declared.fit.Table.{Table};
ghost use Rattle.plm80_runs.specs.OnBoards.{FitsTable, IsJudged, KeepsTable, RunsKeepPromise, first_line, image_of, stack_bytes_of, states_line};
ghost use Rattle.plm80_runs.specs.declared.runnable.Runnable.TheVariants.{Followed};

use image80::Image;
use loader80::{Vouched, vouch};
use loader80_board::laws::{runs_are_on_quiet_boards, vouched_images_keep_the_promise};
use plm80_names::{Names, named_refusal};
use std::alloc::{AllocError, Global};
use verify80_follow::{RunKind, Table, follows};
use verify80_follow_search::{Budget, SearchResult, search};

/// A program that runs.
#[derive(Drop)]
pub enum Runnable {
    /// The verifier accepts the image.
    Accepted(Vouched),
    /// The verifier refuses the image, and this table follows its program.
    Followed(Image, Table),
}

/// What is known of an image that was judged.
#[derive(Drop)]
pub enum Judged {
    /// The program of the image runs.
    Runs(Runnable),
    /// The line of the image's refusal, with the name of its address.
    Refused(Vec<u8>),
}

impl Runnable {
    /// The program's image.
    pub fn image(&self) -> &Image
        ensures { result.now ≡ image_of self.now }
    {
        match self {
            Runnable::Accepted(vouched) => vouched.image(),
            Runnable::Followed(image, _) => image,
        }
    }

    /// How many bytes of stack the program needs at most.
    pub fn stack_bytes(&self) -> u64
        ensures { result ≡ stack_bytes_of self.now }
    {
        match self {
            Runnable::Accepted(vouched) => vouched.stack_bytes(),
            Runnable::Followed(_, table) => u64::from(table.bytes),
        }
    }

    /// The line that is printed before all else: how many states follow the program; nothing if the verifier accepts it.
    ///
    /// # Errors
    /// `AllocError` only if memory runs out.
    pub fn first_line(&self, alloc: Global) -> Result<Vec<u8>, AllocError>
        ensures { IfOk result (λ line. line.items ≡ first_line self.now) }
    {
        match self {
            Runnable::Accepted(_) => Ok(Vec::new(alloc)),
            Runnable::Followed(_, table) => states_line(alloc, table),
        }
    }
}

/// The line that says how many states a table has.
fn states_line(alloc: Global, table: &Table) -> Result<Vec<u8>, AllocError>
    ensures { IfOk result (λ line. line.items ≡ states_line table.now) }
{
    let states = table.states.len();
    let line = format!(in alloc; "FOLLOWED {states} STATES\n")?;
    Ok(line.into_bytes())
}

/// Judges an image: whether its program runs, or the line of a refusal that holds of it.
///
/// # Errors
/// `AllocError` only if memory runs out.
pub fn judge_run(alloc: Global, image: Image, names: &Names) -> Result<Judged, AllocError>
    ensures { IfOk result (IsJudged image names.now) }
{
    match vouch(alloc, image) {
        Ok(vouched) => {
            vouched_images_keep_the_promise(&vouched);
            Ok(Judged::Runs(Runnable::Accepted(vouched)))
        }
        Err((image, refusal)) => {
            let line = named_refusal(alloc, &image, refusal, names)?;
            match find_table(alloc, &image)? {
                Some(table) => Ok(Judged::Runs(Runnable::Followed(image, table))),
                None => Ok(Judged::Refused(line)),
            }
        }
    }
}

/// A table that follows the program of `image` from SP at the stack's top, with no RAM that is quiet; `None` if the search finds none.
///
/// # Errors
/// `AllocError` only if memory runs out.
fn find_table(alloc: Global, image: &Image) -> Result<Option<Table>, AllocError>
    ensures table { IfOk result (λ found. IfSome found (KeepsTable image.now)) }
    ensures fit { IfOk result (λ found. IfSome found (FitsTable image.now)) }
    ensures runs { IfOk result (λ found. IfSome found (λ table. RunsKeepPromise (Followed image.now table))) }
{
    runs_of_followed(image, &image.memory(alloc)?);
    let run = RunKind {
        is_set: true,
        interrupted: false,
    };
    let mut budget = Budget::ALL;
    match search(alloc, image, &[], run, &[], &mut budget)? {
        SearchResult::Found(table) => {
            if follows(alloc, image, &table, &[], run)? {
                Ok(Some(table))
            } else {
                Ok(None)
            }
        }
        SearchResult::Stopped(_) => Ok(None),
    }
}

/// What is known of the runs of a program that a table follows, since its memory holds bytes. (It carries laws, and does nothing.)
fn runs_of_followed(image: &Image, memory: &[u8])
    requires { memory.now ≡ memory_of image.now.chunks }
    ensures { (table : Table) → KeepsTable image.now table → RunsKeepPromise (Followed image.now table) }
{
    runs_are_on_quiet_boards();
    are_bytes(memory);
    image.regions.stack();
}

/// Bytes are below 256. (It carries this fact alone.)
fn are_bytes(memory: &[u8])
    ensures { All (λ byte. byte < 256) memory.now }
{}
