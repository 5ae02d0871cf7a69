// Writing the fields of commands, a function for each kind.
ghost use Rattle.std.specs.Prelude.{◌≡◌, ◌++◌, ◌<◌, true, false, OnOk};
ghost use Rattle.moments.specs.Months.{months, year_of, month_of_year};
ghost use Rattle.office_types.specs.declared.command.Command.TheVariants as command;
ghost use Rattle.entry_codec.specs.Fields as field;
ghost use Rattle.entry_codec.specs.Fields.{format};
ghost use Rattle.entry_codec.specs.Kinds.{is_plain};
ghost use Rattle.entry_codec.specs.Spelling.{fields_spelling, CommandFits};

use crate::field_writers::{
    put_class, put_id, put_key, put_name, put_size, put_status, put_tags, put_u32, put_u64,
};
use crate::months::put_month;
use crate::prices::put_prices;
use crate::rules::put_rules;
use crate::tiers::{is_plain, put_first_prices, put_storage};
use class_rules::Class;
use moments::Month;
use office_base::{BucketName, Key, Size, Tags, VersionId};
use office_types::Command;
use rules_core::RuleSet;
use std::alloc::AllocError;
use tariff::Tariff;

#[tactic(auto, using(crate::proofs::Fitting::create_bucket_fits), unfolding(crate::specs::Spelling::fields_spelling))]
fn put_create_bucket(out: &mut Vec<u8>, bucket: &BucketName) -> Result<(), AllocError>
    ensures bytes { OnOk result (out.new.items ≡ out.old.items ++ fields_spelling (command.CreateBucket bucket.now)) }
    ensures fits { OnOk result (CommandFits (command.CreateBucket bucket.now)) }
{
    put_name(out, bucket)
}

#[tactic(auto, using(crate::proofs::Fitting::set_versioning_fits), unfolding(crate::specs::Spelling::fields_spelling))]
fn put_set_versioning(
    out: &mut Vec<u8>,
    bucket: &BucketName,
    enabled: bool,
) -> Result<(), AllocError>
    ensures bytes { OnOk result (out.new.items
        ≡ out.old.items ++ fields_spelling (command.SetVersioning bucket.now enabled)) }
    ensures fits { OnOk result (CommandFits (command.SetVersioning bucket.now enabled)) }
{
    put_name(out, bucket)?;
    put_status(out, enabled)
}

#[tactic(auto, using(crate::proofs::Fitting::set_rules_fits), unfolding(crate::specs::Spelling::fields_spelling))]
fn put_set_rules(out: &mut Vec<u8>, bucket: &BucketName, rules: &RuleSet) -> Result<(), AllocError>
    ensures bytes { OnOk result (out.new.items
        ≡ out.old.items ++ fields_spelling (command.SetRules bucket.now rules.now)) }
    ensures fits { OnOk result (CommandFits (command.SetRules bucket.now rules.now)) }
{
    put_name(out, bucket)?;
    put_rules(out, rules)
}

#[tactic(auto, using(crate::proofs::Fitting::drop_rules_fits), unfolding(crate::specs::Spelling::fields_spelling))]
fn put_drop_rules(out: &mut Vec<u8>, bucket: &BucketName) -> Result<(), AllocError>
    ensures bytes { OnOk result (out.new.items ≡ out.old.items ++ fields_spelling (command.DropRules bucket.now)) }
    ensures fits { OnOk result (CommandFits (command.DropRules bucket.now)) }
{
    put_name(out, bucket)
}

#[tactic(auto, using(crate::proofs::Fitting::put_fits), unfolding(crate::specs::Spelling::fields_spelling))]
fn put_put(
    out: &mut Vec<u8>,
    bucket: &BucketName,
    key: &Key,
    size: Size,
    class: Class,
    tags: &Tags,
) -> Result<(), AllocError>
    ensures bytes { OnOk result (out.new.items
        ≡ out.old.items ++ fields_spelling (command.Put bucket.now key.now size class tags.now)) }
    ensures fits { OnOk result (CommandFits (command.Put bucket.now key.now size class tags.now)) }
{
    put_name(out, bucket)?;
    put_key(out, key)?;
    put_size(out, size)?;
    put_class(out, class)?;
    put_tags(out, tags)
}

#[tactic(auto, using(crate::proofs::Fitting::delete_fits), unfolding(crate::specs::Spelling::fields_spelling))]
fn put_delete(out: &mut Vec<u8>, bucket: &BucketName, key: &Key) -> Result<(), AllocError>
    ensures bytes { OnOk result (out.new.items
        ≡ out.old.items ++ fields_spelling (command.Delete bucket.now key.now)) }
    ensures fits { OnOk result (CommandFits (command.Delete bucket.now key.now)) }
{
    put_name(out, bucket)?;
    put_key(out, key)
}

#[tactic(auto, using(crate::proofs::Fitting::delete_version_fits), unfolding(crate::specs::Spelling::fields_spelling))]
fn put_delete_version(
    out: &mut Vec<u8>,
    bucket: &BucketName,
    key: &Key,
    id: VersionId,
) -> Result<(), AllocError>
    ensures bytes { OnOk result (out.new.items
        ≡ out.old.items ++ fields_spelling (command.DeleteVersion bucket.now key.now id)) }
    ensures fits { OnOk result (CommandFits (command.DeleteVersion bucket.now key.now id)) }
{
    put_name(out, bucket)?;
    put_key(out, key)?;
    put_id(out, id)
}

#[tactic(auto, using(crate::proofs::Fitting::set_tags_fits), unfolding(crate::specs::Spelling::fields_spelling))]
fn put_set_tags(
    out: &mut Vec<u8>,
    bucket: &BucketName,
    key: &Key,
    id: VersionId,
    tags: &Tags,
) -> Result<(), AllocError>
    ensures bytes { OnOk result (out.new.items
        ≡ out.old.items ++ fields_spelling (command.SetTags bucket.now key.now id tags.now)) }
    ensures fits { OnOk result (CommandFits (command.SetTags bucket.now key.now id tags.now)) }
{
    put_name(out, bucket)?;
    put_key(out, key)?;
    put_id(out, id)?;
    put_tags(out, tags)
}

#[tactic(auto, using(crate::proofs::Fitting::start_upload_fits), unfolding(crate::specs::Spelling::fields_spelling))]
fn put_start_upload(
    out: &mut Vec<u8>,
    bucket: &BucketName,
    key: &Key,
    class: Class,
    tags: &Tags,
) -> Result<(), AllocError>
    ensures bytes { OnOk result (out.new.items
        ≡ out.old.items ++ fields_spelling (command.StartUpload bucket.now key.now class tags.now)) }
    ensures fits { OnOk result (CommandFits (command.StartUpload bucket.now key.now class tags.now)) }
{
    put_name(out, bucket)?;
    put_key(out, key)?;
    put_class(out, class)?;
    put_tags(out, tags)
}

#[tactic(auto, using(crate::proofs::Fitting::put_part_fits), unfolding(crate::specs::Spelling::fields_spelling))]
fn put_put_part(
    out: &mut Vec<u8>,
    bucket: &BucketName,
    upload: u64,
    part: u32,
    size: u64,
) -> Result<(), AllocError>
    ensures bytes { OnOk result (out.new.items
        ≡ out.old.items ++ fields_spelling (command.PutPart bucket.now upload part size)) }
    ensures fits { OnOk result (CommandFits (command.PutPart bucket.now upload part size)) }
{
    put_name(out, bucket)?;
    put_u64(out, upload)?;
    put_u32(out, part)?;
    put_u64(out, size)
}

#[tactic(auto, using(crate::proofs::Fitting::complete_fits), unfolding(crate::specs::Spelling::fields_spelling))]
fn put_complete(out: &mut Vec<u8>, bucket: &BucketName, upload: u64) -> Result<(), AllocError>
    ensures bytes { OnOk result (out.new.items
        ≡ out.old.items ++ fields_spelling (command.Complete bucket.now upload)) }
    ensures fits { OnOk result (CommandFits (command.Complete bucket.now upload)) }
{
    put_name(out, bucket)?;
    put_u64(out, upload)
}

#[tactic(auto, using(crate::proofs::Fitting::abort_fits), unfolding(crate::specs::Spelling::fields_spelling))]
fn put_abort(out: &mut Vec<u8>, bucket: &BucketName, upload: u64) -> Result<(), AllocError>
    ensures bytes { OnOk result (out.new.items ≡ out.old.items ++ fields_spelling (command.Abort bucket.now upload)) }
    ensures fits { OnOk result (CommandFits (command.Abort bucket.now upload)) }
{
    put_name(out, bucket)?;
    put_u64(out, upload)
}

#[tactic(auto, using(crate::proofs::Fitting::act_fits), unfolding(crate::specs::Spelling::fields_spelling))]
fn put_act(out: &mut Vec<u8>, bucket: &BucketName) -> Result<(), AllocError>
    ensures bytes { OnOk result (out.new.items ≡ out.old.items ++ fields_spelling (command.Act bucket.now)) }
    ensures fits { OnOk result (CommandFits (command.Act bucket.now)) }
{
    put_name(out, bucket)
}

// A tariff that holds at all times, with one price for each class.
fn put_plain(out: &mut Vec<u8>, tariff: &Tariff) -> Result<(), AllocError>
    requires { is_plain tariff.now ≡ true }
    ensures bytes { OnOk result (out.new.items ≡ out.old.items ++ fields_spelling (command.SetTariff tariff.now)) }
    ensures fits { OnOk result (CommandFits (command.SetTariff tariff.now)) }
{
    put_first_prices(out, &tariff.storage)?;
    put_prices(out, &tariff.transition)?;
    Ok(())
}

// The year of a month, and its month of the year; there is such a month.
fn put_from(out: &mut Vec<u8>, month: Month) -> Result<(), AllocError>
    ensures bytes { OnOk result (out.new.items ≡ out.old.items
        ++ ((format field.Year).written (year_of month) ++ (format field.Month).written (month_of_year month))) }
    ensures among { month < months }
{
    let _ = month.number();
    put_month(out, month)
}

// Any other tariff.
fn put_tiered(out: &mut Vec<u8>, tariff: &Tariff) -> Result<(), AllocError>
    requires { is_plain tariff.now ≡ false }
    ensures bytes { OnOk result (out.new.items ≡ out.old.items ++ fields_spelling (command.SetTariff tariff.now)) }
    ensures fits { OnOk result (CommandFits (command.SetTariff tariff.now)) }
{
    put_from(out, tariff.from)?;
    put_storage(out, &tariff.storage)?;
    put_prices(out, &tariff.transition)?;
    Ok(())
}

fn put_set_tariff(out: &mut Vec<u8>, tariff: &Tariff) -> Result<(), AllocError>
    ensures bytes { OnOk result (out.new.items ≡ out.old.items ++ fields_spelling (command.SetTariff tariff.now)) }
    ensures fits { OnOk result (CommandFits (command.SetTariff tariff.now)) }
{
    if is_plain(tariff) {
        put_plain(out, tariff)
    } else {
        put_tiered(out, tariff)
    }
}

#[tactic(auto, using(crate::proofs::Fitting::close_fits), unfolding(crate::specs::Spelling::fields_spelling))]
fn put_close(out: &mut Vec<u8>, month: Month) -> Result<(), AllocError>
    ensures bytes { OnOk result (out.new.items ≡ out.old.items ++ fields_spelling (command.Close month)) }
    ensures fits { OnOk result (CommandFits (command.Close month)) }
{
    put_month(out, month)
}

pub(crate) fn put_fields(out: &mut Vec<u8>, command: &Command) -> Result<(), AllocError>
    ensures bytes { OnOk result (out.new.items ≡ out.old.items ++ fields_spelling command.now) }
    ensures fits { OnOk result (CommandFits command.now) }
{
    match command {
        Command::CreateBucket { bucket } => put_create_bucket(out, bucket),
        Command::SetVersioning { bucket, enabled } => put_set_versioning(out, bucket, *enabled),
        Command::SetRules { bucket, rules } => put_set_rules(out, bucket, rules),
        Command::DropRules { bucket } => put_drop_rules(out, bucket),
        Command::Put {
            bucket,
            key,
            size,
            class,
            tags,
        } => put_put(out, bucket, key, *size, *class, tags),
        Command::Delete { bucket, key } => put_delete(out, bucket, key),
        Command::DeleteVersion { bucket, key, id } => put_delete_version(out, bucket, key, *id),
        Command::SetTags {
            bucket,
            key,
            id,
            tags,
        } => put_set_tags(out, bucket, key, *id, tags),
        Command::StartUpload {
            bucket,
            key,
            class,
            tags,
        } => put_start_upload(out, bucket, key, *class, tags),
        Command::PutPart {
            bucket,
            upload,
            part,
            size,
        } => put_put_part(out, bucket, *upload, *part, *size),
        Command::Complete { bucket, upload } => put_complete(out, bucket, *upload),
        Command::Abort { bucket, upload } => put_abort(out, bucket, *upload),
        Command::Act { bucket } => put_act(out, bucket),
        Command::SetTariff { tariff } => put_set_tariff(out, tariff.get()),
        Command::Close { month } => put_close(out, *month),
    }
}
