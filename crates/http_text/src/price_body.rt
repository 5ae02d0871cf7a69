// The tariffs, as JSON.
ghost use Rattle.std.specs.Prelude.{◌++◌, Ok, decimal};
ghost use Rattle.tariff.specs.Prices.{move_price, storage_tiers};
ghost use Rattle.office_types.specs.declared.reply.Reply.TheVariants.{TariffShown};
ghost use Rattle.http_text.specs.Bodies.{moves_text, storage_text, tariff_data, tariffs_text};
ghost use Rattle.http_text.specs.Bodies.{tier_data, tier_list_text, tiers_text};
ghost use Rattle.http_text.specs.Parts.{item_part, upto_part};
ghost use Rattle.http_text.specs.Replies.{body_text};
ghost use Rattle.http_text.specs.Room.{Puts};

use crate::members::{put_month, put_whole};
use crate::room::{put, put_number};
use crate::tag_body::put_comma;
use class_rules::Class;
use tariff::{Tariff, Tier};

#[tactic(auto, using(crate::proofs::RoomLemmas::puts_nothing))]
fn put_upto(room: &mut [u8], at: usize, upto: Option<u32>) -> usize
    ensures { Puts room.old at room.new result (upto_part upto) }
{
    match upto {
        Some(upto) => put_whole(room, at, b",\"upto\":", u64::from(upto)),
        None => at,
    }
}

fn put_tier(room: &mut [u8], at: usize, later: bool, tier: &Tier) -> usize
    ensures { Puts room.old at room.new result (item_part later (tier_data tier.now)) }
{
    let at = put_comma(room, at, later);
    let at = put_whole(room, at, b"{\"price\":", u64::from(tier.price));
    let at = put_upto(room, at, tier.upto);
    put(room, at, b"}")
}

fn put_list(room: &mut [u8], at: usize, tiers: &[Tier]) -> usize
    ensures { Puts room.old at room.new result (tier_list_text tiers.now) }
{
    let mut at = put(room, at, b"[");
    let mut later = false;
    for tier in tiers {
        at = put_tier(room, at, later, tier);
        later = true;
    }
    put(room, at, b"]")
}

// A single tier is only its price.
#[tactic(auto, using(crate::proofs::LongTexts::one_is, crate::proofs::LongTexts::several_is))]
fn put_tiers(room: &mut [u8], at: usize, tiers: &[Tier]) -> usize
    ensures { Puts room.old at room.new result (tiers_text tiers.now) }
{
    if tiers.len() == 1 {
        return put_number(room, at, u64::from(tiers[0].price));
    }
    put_list(room, at, tiers)
}

fn put_class(room: &mut [u8], at: usize, before: &[u8], tariff: &Tariff, class: Class) -> usize
    ensures { Puts room.old at room.new result (before.now ++ tiers_text (storage_tiers tariff.now class)) }
{
    let at = put(room, at, before);
    put_tiers(room, at, tariff.storage_tiers(class).list())
}

fn put_move_price(room: &mut [u8], at: usize, before: &[u8], tariff: &Tariff, class: Class) -> usize
    ensures { Puts room.old at room.new result (before.now ++ decimal (move_price tariff.now class)) }
{
    put_whole(room, at, before, u64::from(tariff.move_price(class)))
}

fn put_storage(room: &mut [u8], at: usize, tariff: &Tariff) -> usize
    ensures { Puts room.old at room.new result (storage_text tariff.now) }
{
    let at = put_class(room, at, b"{\"DEEP_ARCHIVE\":", tariff, Class::DeepArchive);
    let at = put_class(room, at, b",\"GLACIER\":", tariff, Class::Glacier);
    let at = put_class(room, at, b",\"GLACIER_IR\":", tariff, Class::GlacierIr);
    let at = put_class(room, at, b",\"ONEZONE_IA\":", tariff, Class::OnezoneIa);
    let at = put_class(room, at, b",\"STANDARD\":", tariff, Class::Standard);
    let at = put_class(room, at, b",\"STANDARD_IA\":", tariff, Class::StandardIa);
    put(room, at, b"}")
}

fn put_moves(room: &mut [u8], at: usize, tariff: &Tariff) -> usize
    ensures { Puts room.old at room.new result (moves_text tariff.now) }
{
    let at = put_move_price(room, at, b"{\"DEEP_ARCHIVE\":", tariff, Class::DeepArchive);
    let at = put_move_price(room, at, b",\"GLACIER\":", tariff, Class::Glacier);
    let at = put_move_price(room, at, b",\"GLACIER_IR\":", tariff, Class::GlacierIr);
    let at = put_move_price(room, at, b",\"ONEZONE_IA\":", tariff, Class::OnezoneIa);
    let at = put_move_price(room, at, b",\"STANDARD_IA\":", tariff, Class::StandardIa);
    put(room, at, b"}")
}

fn put_tariff(room: &mut [u8], at: usize, later: bool, tariff: &Tariff) -> usize
    ensures { Puts room.old at room.new result (item_part later (tariff_data tariff.now)) }
{
    let at = put_comma(room, at, later);
    let at = put_month(room, at, b"{\"from\":", tariff.from);
    let at = put(room, at, b",\"storage\":");
    let at = put_storage(room, at, tariff);
    let at = put(room, at, b",\"transition\":");
    let at = put_moves(room, at, tariff);
    put(room, at, b"}")
}

fn put_each(room: &mut [u8], at: usize, tariffs: &[Tariff]) -> usize
    ensures { Puts room.old at room.new result (tariffs_text tariffs.now) }
{
    let mut at = put(room, at, b"[");
    let mut later = false;
    for tariff in tariffs {
        at = put_tariff(room, at, later, tariff);
        later = true;
    }
    put(room, at, b"]")
}

/// Writes tariffs in order, each with its first month and with the prices of storage and moves, by the names of the
/// classes.
pub(crate) fn put_tariffs(room: &mut [u8], at: usize, tariffs: &[Tariff]) -> usize
    ensures { Puts room.old at room.new result (body_text (Ok (TariffShown tariffs.now))) }
{
    let at = put(room, at, b"{\"tariffs\":");
    let at = put_each(room, at, tariffs);
    put(room, at, b"}")
}
