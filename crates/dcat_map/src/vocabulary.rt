//! The IRIs of the classes and properties that are read.

pub(crate) const TYPE: &str = "http://www.w3.org/1999/02/22-rdf-syntax-ns#type";

pub(crate) const CATALOG_CLASS: &str = "http://www.w3.org/ns/dcat#Catalog";

pub(crate) const DATASET_CLASS: &str = "http://www.w3.org/ns/dcat#Dataset";

pub(crate) const DATASET: &str = "http://www.w3.org/ns/dcat#dataset";

pub(crate) const DISTRIBUTION: &str = "http://www.w3.org/ns/dcat#distribution";

pub(crate) const KEYWORD: &str = "http://www.w3.org/ns/dcat#keyword";

pub(crate) const DOWNLOAD_URL: &str = "http://www.w3.org/ns/dcat#downloadURL";

pub(crate) const ACCESS_URL: &str = "http://www.w3.org/ns/dcat#accessURL";

pub(crate) const MEDIA_TYPE: &str = "http://www.w3.org/ns/dcat#mediaType";

pub(crate) const TITLE: &str = "http://purl.org/dc/terms/title";

pub(crate) const DESCRIPTION: &str = "http://purl.org/dc/terms/description";

pub(crate) const MODIFIED: &str = "http://purl.org/dc/terms/modified";

pub(crate) const LICENSE: &str = "http://purl.org/dc/terms/license";

pub(crate) const FORMAT: &str = "http://purl.org/dc/terms/format";

/// How the IRIs of the registered media types begin.
pub(crate) const MEDIA_TYPES: &str = "https://www.iana.org/assignments/media-types/";

pub(crate) const OLD_MEDIA_TYPES: &str = "http://www.iana.org/assignments/media-types/";
