//! What the words of each command order.

use crate::refusal::Refusal;
use crate::{checking, cleaning, joining, repairing, rooting, splitting};
use shardfile_words::fault::WrongWord;
use shardfile_words::files::{
    file_or_stream, name_and_shards, output_and_shards, shards, wrong_count,
};
use shardfile_words::options::{Options, check_options};
use shardfile_words::values::{number, numbers, root_asked};

/// What is wrong where a stream is joined in part.
const PARTIAL_STREAM: &str = "-: --partial writes no stream, but a file";

/// `MIN TOTAL FILE`: the shard files of the file, or of standard input.
pub fn split(rt: &HostRuntime, options: &Options) -> Result<(), Refusal> {
    check_options(options, "split", &["--force", "--to", "--name", "--root"])?;
    let [min, total, file] = options.words.as_slice() else {
        return Err(Refusal::from(wrong_count("MIN TOTAL FILE", options)));
    };
    let min = number(rt.alloc(), "MIN", min)?;
    let total = number(rt.alloc(), "TOTAL", total)?;
    if total < min {
        return Err(Refusal::Usage(WrongWord::MinAboveTotal(min, total)));
    }
    let (name, is_stream) = file_or_stream(rt.alloc(), file, options.name)?;
    let order = splitting::Order {
        min,
        total,
        name,
        to: options.to,
        force: options.force,
        has_root: options.has_root,
    };
    if is_stream {
        splitting::split_stream(rt, &order)
    } else {
        splitting::split(rt, &order)
    }
}

/// `FILE OUT`, or `OUT SHARD ..`: the file that the shard files give.
pub fn join(rt: &HostRuntime, options: &Options) -> Result<(), Refusal> {
    check_options(
        options,
        "join",
        &["--force", "--all", "--shards", "--partial", "--root"],
    )?;
    let root = root_asked(rt.alloc(), options)?;
    let (out, wanted) = output_and_shards(rt.alloc(), options)?;
    if options.partial && out == joining::STANDARD_OUTPUT {
        return Err(Refusal::Usage(WrongWord::Words(PARTIAL_STREAM)));
    }
    let order = joining::Order {
        wanted,
        out,
        force: options.force,
        compares_all: options.all,
        is_partial: options.partial,
        root,
    };
    joining::join(rt, &order)
}

/// `FILE`, or `NAME SHARD ..`: the shard files that are missing or unsound.
pub fn repair(rt: &HostRuntime, options: &Options) -> Result<(), Refusal> {
    check_options(
        options,
        "repair",
        &["--force", "--all", "--shards", "--only", "--root"],
    )?;
    let root = root_asked(rt.alloc(), options)?;
    let (name, wanted) = name_and_shards(rt.alloc(), options)?;
    let order = repairing::Order {
        wanted,
        name,
        only: numbers(rt.alloc(), options)?,
        force: options.force,
        compares_all: options.all,
        root,
    };
    repairing::repair(rt, &order)
}

/// `FILE`, or `SHARD ..`: what is to be said of the shard files. It refuses, once that is said,
/// where not all are there and fit.
pub fn check(rt: &HostRuntime, options: &Options) -> Result<(), Refusal> {
    check_options(options, "check", &["--all", "--shards", "--root"])?;
    let root = root_asked(rt.alloc(), options)?;
    let wanted = shards(rt.alloc(), options)?;
    checking::check(rt, &wanted, root, options.all)
}

/// `FILE`, or `SHARD ..`: the roots that the shard files claim.
pub fn root_of(rt: &HostRuntime, options: &Options) -> Result<(), Refusal> {
    check_options(options, "root", &["--shards"])?;
    let wanted = shards(rt.alloc(), options)?;
    rooting::print_roots(rt, &wanted)
}

/// `FOLDER`: what stopped and refused runs left there is removed.
pub fn clean(rt: &HostRuntime, options: &Options) -> Result<(), Refusal> {
    check_options(options, "clean", &[])?;
    let [folder] = options.words.as_slice() else {
        return Err(Refusal::from(wrong_count("FOLDER", options)));
    };
    cleaning::clean(rt, folder)
}
