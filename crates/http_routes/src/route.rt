// Where a target leads.

/// Where the target of a request leads. Its parts are the bytes of the target: nothing is percent-decoded.
#[derive(Clone, Copy, Debug, PartialEq, Eq)]
pub enum Route<'t> {
    /// `/buckets/{bucket}`: a bucket.
    Bucket {
        /// The name of the bucket.
        bucket: &'t str,
    },
    /// `/buckets/{bucket}/versioning`: the versioning of a bucket.
    Versioning {
        /// The name of the bucket.
        bucket: &'t str,
    },
    /// `/buckets/{bucket}/lifecycle`: the lifecycle configuration of a bucket.
    Lifecycle {
        /// The name of the bucket.
        bucket: &'t str,
    },
    /// `/buckets/{bucket}/objects/{*key}`: an object of a bucket.
    Object {
        /// The name of the bucket.
        bucket: &'t str,
        /// The key of the object: all that is left of the target, slashes included.
        key: &'t str,
    },
    /// `/buckets/{bucket}/versions/{id}/{*key}`: a version of an object.
    Version {
        /// The name of the bucket.
        bucket: &'t str,
        /// The id of the version.
        id: &'t str,
        /// The key of the object: all that is left of the target, slashes included.
        key: &'t str,
    },
    /// `/buckets/{bucket}/tags/{id}/{*key}`: the tags of a version.
    Tags {
        /// The name of the bucket.
        bucket: &'t str,
        /// The id of the version.
        id: &'t str,
        /// The key of the object: all that is left of the target, slashes included.
        key: &'t str,
    },
    /// `/buckets/{bucket}/uploads/{*key}`: the uploads of an object.
    Uploads {
        /// The name of the bucket.
        bucket: &'t str,
        /// The key of the object: all that is left of the target, slashes included.
        key: &'t str,
    },
    /// `/buckets/{bucket}/upload/{id}`: an upload.
    Upload {
        /// The name of the bucket.
        bucket: &'t str,
        /// The id of the upload.
        id: &'t str,
    },
    /// `/buckets/{bucket}/parts/{id}/{part}`: a part of an upload.
    Part {
        /// The name of the bucket.
        bucket: &'t str,
        /// The id of the upload.
        id: &'t str,
        /// The number of the part.
        part: &'t str,
    },
    /// `/buckets/{bucket}/act`: the next lifecycle action of a bucket, taken.
    Act {
        /// The name of the bucket.
        bucket: &'t str,
    },
    /// `/buckets/{bucket}/due`: the next lifecycle action of a bucket, shown.
    Due {
        /// The name of the bucket.
        bucket: &'t str,
    },
    /// `/buckets/{bucket}/meters/{month}`: the meters of a bucket in a month.
    Meters {
        /// The name of the bucket.
        bucket: &'t str,
        /// The month.
        month: &'t str,
    },
    /// `/tariff`: the tariff.
    Tariff,
    /// `/months/{month}/close`: the close of a month.
    Close {
        /// The month.
        month: &'t str,
    },
    /// `/months/{month}/report`: the report of a month.
    Report {
        /// The month.
        month: &'t str,
    },
}
