// What holds of every forecast, as calls that do nothing.
ghost use Rattle.std.specs.Prelude.{◌≡◌, List};
ghost use Rattle.plain_office.specs.Office.{Office};
ghost use Rattle.forecast.specs.Forecasts.{Proposal, Outlook, IsForecast};
ghost use Rattle.forecast.specs.Laws.{IsSameOutlook, ActsChangeNoForecast};

/// States that a forecast comes true. The configuration is set in the office at the moment of the forecast, nothing but
/// acts is done to the bucket, and it is swept at the other moment. Then its records and books are those of the
/// forecast, whatever acts were done in between; and so are its meters, early quantities and moves.
///
/// Rule: S3 User Guide, "Managing the lifecycle of objects".
pub fn acts_in_between_change_no_forecast()
    ensures { ActsChangeNoForecast }
{}

/// States that what is proposed has only one forecast.
pub fn every_forecast_is_one()
    ensures { (asked : Proposal) (office : Office) (one other : Outlook)
        → IsForecast asked office one → IsForecast asked office other → IsSameOutlook one other }
{}
