//! The day that words name, and the one from which a login is stopped, which is today unless it is
//! forced.
ghost use Rattle.std.specs.Prelude.{◌≡◌, ◌/◌, ◌+◌, ◌≤◌, ℕ, IfErr, IfOk, MatchResult, option_map};
ghost use Rattle.mq_request.specs.Range.{IsMoment, IsWithin};
ghost use Rattle.mq_process.specs.Arguments.{IsDayUpTo, last_stop_day};
ghost use Rattle.mq_ledger.specs.Day.{day_of};
ghost use Rattle.mq_process.specs.Today.{ChoosesBy, ChoosesDay, ChoosesNow, IsDaysAgo, IsNoDay};
ghost use Rattle.mq_process.specs.Today.{IsTomorrow, NamesDay, RefusesAgo, RefusesTomorrow};
ghost use Rattle.mq_process.specs.Today.{StopsFrom};
ghost use Rattle.mq_process.specs.Today.{is_today, today_of};

use crate::arguments::{DayArgument, SERVER_SETTINGS};
use crate::fault::ProcessFault;
use crate::moment::moment_or_now;
use crate::settings::{server_settings, server_settings_if_there};
use crate::whom::named_settings;
use mq_ledger::Zone;
use mq_request::bounds::LAST_DAY;
use std::rt::{Clock, Files};

/// The seconds of a day of UTC.
const SECONDS: u64 = 86_400;

/// Today's day number at this moment: in this zone, or that of UTC where none is known.
fn today_of(zone: Option<&Zone>, moment: u64) -> u32
    requires { IsMoment moment }
    ensures { result ≡ today_of (option_map (λ z. z.now) zone.entry) moment }
{
    match zone {
        Some(zone) => zone.day_at(moment),
        None => u32::try_from(moment / SECONDS).unwrap_or(LAST_DAY),
    }
}

/// Whether a day can be today: by the zone, or where none is known in any whose clock is less than
/// a day from UTC's.
fn is_today(zone: Option<&Zone>, moment: u64, day: u32) -> bool
    requires { IsMoment moment }
    ensures { result ≡ is_today (option_map (λ z. z.now) zone.entry) moment day }
{
    let today = today_of(zone, moment);
    match zone {
        Some(_zone) => day == today,
        None => day <= today + 1 && today <= day + 1,
    }
}

/// The day so many days before today, in this zone, by the clock: at most this last one.
fn day_before(rt: &impl Clock, zone: &Zone, ago: u32, last: u32) -> Result<u32, ProcessFault>
    ensures day { MatchResult result
        (λ day. (moment : ℕ) × IsMoment moment × (day + ago ≡ day_of zone.now moment))
        (λ fault. fault ≡ ProcessFault.NoMoment) }
    ensures in_range { IfOk result (IsWithin 0 last) }
{
    match moment_or_now(rt, None) {
        Ok(moment) => {
            let today = zone.day_at(moment);
            if today < ago || last < today - ago {
                return Err(ProcessFault::NoMoment);
            }
            Ok(today - ago)
        }
        Err(fault) => Err(fault),
    }
}

/// The day so many days before today, in the zone of the server's settings: at most this last one.
fn days_ago<R: Files + Clock + Eprint + AllocGlobal>(
    rt: &R,
    config: Option<&str>,
    ago: u32,
    last: u32,
) -> Result<u32, ProcessFault>
    ensures day { MatchResult result (IsDaysAgo R.File.remaining ago) (IsNoDay R.File.remaining) }
    ensures in_range { IfOk result (IsWithin 0 last) }
{
    match named_settings(rt, config) {
        Ok(Some(settings)) => day_before(rt, &settings.zone, ago, last),
        Ok(None) => Err(ProcessFault::NoDay),
        Err(fault) => Err(fault),
    }
}

/// The day after today, in this zone, by the clock: at most this last one.
fn day_after(rt: &impl Clock, zone: &Zone, last: u32) -> Result<u32, ProcessFault>
    ensures day { MatchResult result
        (λ day. (moment : ℕ) × IsMoment moment × (day ≡ day_of zone.now moment + 1))
        (λ fault. fault ≡ ProcessFault.NoMoment) }
    ensures in_range { IfOk result (IsWithin 0 last) }
{
    match moment_or_now(rt, None) {
        Ok(moment) => {
            let tomorrow = zone.day_at(moment) + 1;
            if last < tomorrow {
                return Err(ProcessFault::NoMoment);
            }
            Ok(tomorrow)
        }
        Err(fault) => Err(fault),
    }
}

/// The day after today, in the zone of the server's settings: at most this last one.
fn tomorrow<R: Files + Clock + Eprint + AllocGlobal>(
    rt: &R,
    config: Option<&str>,
    last: u32,
) -> Result<u32, ProcessFault>
    ensures day { MatchResult result (IsTomorrow R.File.remaining) (IsNoDay R.File.remaining) }
    ensures in_range { IfOk result (IsWithin 0 last) }
{
    match named_settings(rt, config) {
        Ok(Some(settings)) => day_after(rt, &settings.zone, last),
        Ok(None) => Err(ProcessFault::NoDay),
        Err(fault) => Err(fault),
    }
}

/// The day that words name, by its number, or by today in the zone of the server's settings: of
/// those in the file that the words name, or else in their place.
///
/// It fails with `NoDay` where it is named by today and no settings are there, and with `NoMoment`
/// where the clock can't be read, or the day would be before day 0 or after the last one. `last` is
/// the greatest number that may be given.
pub fn day_named<R: Files + Clock + Eprint + AllocGlobal>(
    rt: &R,
    given: DayArgument,
    config: Option<&str>,
    last: u32,
) -> Result<u32, ProcessFault>
    requires { IsDayUpTo last given }
    ensures day { MatchResult result (NamesDay R.File.remaining given) (IsNoDay R.File.remaining) }
    ensures in_range { IfOk result (IsWithin 0 last) }
{
    match given {
        DayArgument::Today => days_ago(rt, config, 0, last),
        DayArgument::Ago(ago) => days_ago(rt, config, ago, last),
        DayArgument::Tomorrow => tomorrow(rt, config, last),
        DayArgument::Given(number) => Ok(number),
    }
}

/// The day that is given, where it can be today.
fn chosen_day(zone: Option<&Zone>, moment: u64, day: u32) -> Result<u32, ProcessFault>
    requires { IsMoment moment }
    ensures { ChoosesDay (option_map (λ z. z.now) zone.entry) moment day result }
{
    let today = today_of(zone, moment);
    if is_today(zone, moment, day) {
        Ok(day)
    } else {
        Err(ProcessFault::NotToday(day, today))
    }
}

/// The day that is given, where it can be today by the clock.
fn day_by_clock(rt: &impl Clock, zone: Option<&Zone>, day: u32) -> Result<u32, ProcessFault>
    ensures { ChoosesNow (option_map (λ z. z.now) zone.entry) day result }
{
    match moment_or_now(rt, None) {
        Ok(moment) => chosen_day(zone, moment, day),
        Err(fault) => Err(fault),
    }
}

/// The day that is given, where it can be today by the zone of the settings in a file, or where none
/// is named by that of those in their place, or in some zone where these can't be used.
fn day_by_settings<R: Files + Clock + Eprint + AllocGlobal>(
    rt: &R,
    day: u32,
    config: Option<&str>,
) -> Result<u32, ProcessFault>
    ensures { ChoosesBy R.File.remaining config.entry day result }
{
    match config {
        None => match server_settings_if_there(rt, SERVER_SETTINGS) {
            Ok(Some(settings)) => day_by_clock(rt, Some(&settings.zone), day),
            _ => day_by_clock(rt, None, day),
        },
        Some(file) => match server_settings(rt, file) {
            Ok(settings) => day_by_clock(rt, Some(&settings.zone), day),
            Err(fault) => Err(fault),
        },
    }
}

/// Refuses a day that lies so many days before today, unless it is today.
fn day_not_ago<R: Files + Clock + Eprint + AllocGlobal>(
    rt: &R,
    ago: u32,
    config: Option<&str>,
) -> Result<u32, ProcessFault>
    requires { IsWithin 0 376200 ago }
    ensures chooses { RefusesAgo R.File.remaining ago result }
    ensures in_range { IfOk result (IsWithin 0 last_stop_day) }
{
    match days_ago(rt, config, ago, LAST_DAY - 1) {
        Ok(day) => {
            if ago == 0 {
                Ok(day)
            } else {
                Err(ProcessFault::NotToday(day, day + ago))
            }
        }
        Err(fault) => Err(fault),
    }
}

/// Refuses tomorrow.
fn not_tomorrow<R: Files + Clock + Eprint + AllocGlobal>(
    rt: &R,
    config: Option<&str>,
) -> Result<u32, ProcessFault>
    ensures { RefusesTomorrow R.File.remaining result }
{
    match tomorrow(rt, config, LAST_DAY) {
        Ok(day) => Err(ProcessFault::NotToday(day, day - 1)),
        Err(fault) => Err(fault),
    }
}

/// The day from which a login is stopped: that of the words, where it is forced, or is today by the
/// clock and the zone of the server's settings. Where there are none that can be used, a day that is
/// given by its number or date has to be today in some zone.
///
/// It fails with `NotToday` for another day, with `NoDay` and `NoMoment` as [`day_named`] does, and
/// where the settings can't be used.
pub fn day_to_stop<R: Files + Clock + Eprint + AllocGlobal>(
    rt: &R,
    given: DayArgument,
    config: Option<&str>,
    is_forced: bool,
) -> Result<u32, ProcessFault>
    requires { IsDayUpTo last_stop_day given }
    ensures stops { StopsFrom R.File.remaining config.entry is_forced given result }
    ensures in_range { IfOk result (IsWithin 0 last_stop_day) }
{
    if is_forced {
        return day_named(rt, given, config, LAST_DAY - 1);
    }
    match given {
        DayArgument::Today => days_ago(rt, config, 0, LAST_DAY - 1),
        DayArgument::Ago(ago) => day_not_ago(rt, ago, config),
        DayArgument::Tomorrow => not_tomorrow(rt, config),
        DayArgument::Given(day) => day_by_settings(rt, day, config),
    }
}
